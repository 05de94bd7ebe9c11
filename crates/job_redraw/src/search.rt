//! The search for the report. It is the search of job bounds.

ghost use Rattle.std.specs.Prelude.{◌≡◌, ◌≤◌, All, IfOk};
ghost use Rattle.itv_base.specs.declared.limits.TheConstants.{MAX_BUDGET};
ghost use Rattle.slack_report.specs.Entry.{IsName};
ghost use Rattle.job_bounds.specs.Reports.{HasRowRanges};
ghost use Rattle.job_redraw.specs.Step.{IsReportKept, IsTextOf};

use crate::tape::Tape;
use drawn_networks::DrawnNetwork;
use itv_base::NoMemory;
use job_base::Unanswered;
use job_bounds::write_bounds;
use slack_report::{EndWord, Report, ReportFault, read_report};
use std::alloc::Global;

/// The lines of a report, and the word at its end.
#[derive(Drop)]
pub struct KeptReport {
    pub report: Report,
    pub end: EndWord,
}

/// The text of a report, and the word at its end.
#[derive(Drop)]
pub struct Written {
    pub tape: Tape,
    pub end: EndWord,
}

/// The report of a drawn network as job bounds writes it, without the lines of proofs. Each search closes at most `budget` cases.
/// The report is written into memory and read back, so that no search is written twice.
pub fn searched(alloc: Global, drawn: &DrawnNetwork, budget: u64) -> Result<KeptReport, NoMemory>
    requires least { 1 ≤ budget }
    requires most { budget ≤ MAX_BUDGET }
    requires names { All IsName drawn.now.names }
    requires ranges { HasRowRanges drawn.now }
    ensures searched { IfOk result (IsReportKept drawn.now budget) }
{
    let written = write_report(alloc, drawn, budget)?;
    match read_report(alloc, written.tape.bytes()) {
        Ok(report) => Ok(KeptReport {
            report,
            end: written.end,
        }),
        Err(ReportFault::NoMemory) => Err(NoMemory),
        Err(ReportFault::Line(_)) => unreachable!(),
    }
}

// The text of the report, in memory.
fn write_report(alloc: Global, drawn: &DrawnNetwork, budget: u64) -> Result<Written, NoMemory>
    requires least { 1 ≤ budget }
    requires most { budget ≤ MAX_BUDGET }
    ensures { IfOk result (IsTextOf drawn.now budget) }
{
    let mut tape = Tape::new(alloc);
    match write_bounds(alloc, drawn, budget, false, &mut tape) {
        Ok(summary) => Ok(Written {
            tape,
            end: summary.end,
        }),
        // A put into a tape fails only for lack of memory.
        Err(Unanswered::NoMemory | Unanswered::PutFailed) => Err(NoMemory),
    }
}
