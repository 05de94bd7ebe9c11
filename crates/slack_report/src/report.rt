//! Reading a report.

ghost use Rattle.std.specs.Prelude.{◌≡◌, ℕ, IfOk, IsErrOf, List};
ghost use Rattle.slack_report.specs.Answer.{IsLineFault, IsRead};
ghost use Rattle.slack_report.specs.Step.Answer.{IsAnswer};
ghost use Rattle.slack_report.specs.Entry.{Entry};
ghost use Rattle.slack_report.specs.Order.{IsReport};
ghost use Rattle.slack_report.specs.Reading.{report_in};
ghost use Rattle.slack_report.specs.Report.{IsFirstWrongLine};
ghost use Rattle.slack_report.specs.Text.{report_text};

use crate::fault::ReportFault;
use crate::items::Items;
use crate::read::read_items;
use std::alloc::Global;
use std::marker::Model;

/// A report that was read. Contracts see the list of its lines.
#[derive(Drop)]
pub struct Report {
    items: Items,
}

impl Model for Report {
    ghost use Rattle.std.specs.Prelude.{List};
    ghost use Rattle.slack_report.specs.Entry.{Entry};

    ghost Value = { List Entry };

    ghost view = { λ r. r.items };
}

impl Report {
    /// The lines of the report.
    pub fn items(&self) -> &Items
        ensures items { result.now ≡ self.now }
    {
        &self.items
    }
}

fn read_whole(alloc: Global, bytes: &[u8]) -> Result<Report, ReportFault>
    ensures { IsAnswer result (report_in bytes.now) }
{
    let list = read_items(alloc, bytes)?;
    Ok(Report {
        items: Items::new(list),
    })
}

/// Parses a report, or gives the first line, counted from 1, at which no report can go on. If the text ends too early,
/// that is the line after its whole lines.
pub fn read_report(alloc: Global, bytes: &[u8]) -> Result<Report, ReportFault>
    // What is read is a report, and the bytes are its text.
    ensures ok { IfOk result (λ entries. IsReport entries × (bytes.now ≡ report_text entries)) }
    // The text of a report is read as that report, unless memory runs out.
    ensures only { (entries : List Entry) → IsReport entries → bytes.now ≡ report_text entries → IsRead result entries }
    // The line of a fault is the first wrong line of the bytes.
    ensures named { (line : ℕ) → IsErrOf result (ReportFault.Line line) → IsFirstWrongLine bytes.now line }
    // If there is a first wrong line, the fault gives it, unless memory runs out.
    ensures wrong { (line : ℕ) → IsFirstWrongLine bytes.now line → IsLineFault result line }
{
    read_whole(alloc, bytes)
}
