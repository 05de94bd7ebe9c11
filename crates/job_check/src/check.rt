//! Checking a report.

ghost use Rattle.std.specs.Prelude.{◌<◌, ◌^◌, IfOk, length};
ghost use Rattle.job_check.specs.Check.{IsCheckOf};
ghost use Rattle.job_check.specs.Step.CheckWalks.{ChecksItems};

use crate::walk::walk;
use branch::Work;
use cert_checker::Checker;
use drawn_networks::DrawnNetwork;
use itv_base::NoMemory;
use slack_report::{Items, ReportFault, read_report};
use std::alloc::Global;

/// What becomes of a report that is checked.
#[derive(Clone, Copy)]
pub enum Checked {
    /// Each line meets the check: the report is right.
    Accepted,
    /// This line, counted from 1, is the first wrong line.
    Refused { line: u64 },
}

/// Checks a text as a report of a drawn network.
pub fn check_report(alloc: Global, drawn: &DrawnNetwork, bytes: &[u8]) -> Result<Checked, NoMemory>
    ensures check { IfOk result (IsCheckOf drawn.now bytes.now) }
{
    match read_report(alloc, bytes) {
        Ok(report) => check_items(alloc, drawn, report.items()),
        Err(ReportFault::Line(line)) => Ok(Checked::Refused { line }),
        Err(ReportFault::NoMemory) => Err(NoMemory),
    }
}

// Checks the lines of a report.
fn check_items(alloc: Global, drawn: &DrawnNetwork, items: &Items) -> Result<Checked, NoMemory>
    requires few { length items.now < 2 ^ 63 }
    ensures check { IfOk result (ChecksItems drawn.now items.now) }
{
    let net = drawn.network();
    let mut checker = Checker::new(alloc, net)?;
    let mut work = Work::new(alloc, net)?;
    let walked = walk(drawn, &mut checker, &mut work, items);
    drop(work);
    match walked {
        Ok(()) => Ok(Checked::Accepted),
        Err(number) => Ok(Checked::Refused { line: number + 1 }),
    }
}
