//! Writing all rows.

ghost use Rattle.std.specs.Prelude.{◌≡◌, ◌<◌, [], List, IfOk, OnErr, length};
ghost use Rattle.requirements.specs.declared.verdict.Verdict.{Verdict};
ghost use Rattle.right_report.specs.Writing.{WroteFront};
ghost use Rattle.right_report.specs.Right.ReportState.{at_row, at_rows};
ghost use Rattle.job_bounds.specs.Step.Ready.{IsReady, IsTally, behind_known, behind_rows};
ghost use Rattle.job_bounds.specs.Step.Searched.{printed_known, sized};
ghost use Rattle.job_bounds.specs.Step.Writing.{WroteVerdicts};

use crate::desk::Desk;
use crate::row::print_row;
use crate::tally::Tally;
use crate::wanted::Wanted;
use drawn_networks::DrawnNetwork;
use itv_base::{PutFailed, Sink};
use job_base::row_at;
use requirements::Consistency;
use slack_report::{Item, write_item};

/// Writes how many rows there are, and each row. After an inconsistent finding writes nothing.
pub fn print_rows<K: Sink>(
    found: Consistency,
    drawn: &DrawnNetwork,
    wanted: Wanted,
    desk: &mut Desk,
    sink: &mut K,
) -> Result<Tally, PutFailed>
    requires budget { 0 < wanted.budget }
    requires ready { IsReady drawn.now.net found desk.old }
    ensures counts { IfOk result (λ tally. (words : List Verdict) × IsTally tally words
        × WroteVerdicts (sized drawn.now.net wanted.budget wanted.cert (printed_known desk.old.work.known)) drawn.now (behind_known found)
        (behind_rows found tally (length drawn.now.rows)) words (K.state sink.old) (K.state sink.new)) }
    ensures stops { OnErr result (WroteFront (sized drawn.now.net wanted.budget wanted.cert (printed_known desk.old.work.known)) drawn.now (behind_known found)
        (K.state sink.old) (K.state sink.new)) }
{
    match found {
        Consistency::Inconsistent => Ok(Tally::start(found)),
        Consistency::Consistent | Consistency::Open => {
            print_each(found, drawn, wanted, desk, sink)
        }
    }
}

// Writes how many rows there are, and each row.
fn print_each<K: Sink>(
    found: Consistency,
    drawn: &DrawnNetwork,
    wanted: Wanted,
    desk: &mut Desk,
    sink: &mut K,
) -> Result<Tally, PutFailed>
    requires budget { 0 < wanted.budget }
    requires found { found ≡ Consistency.Inconsistent → ⊥ }
    requires ready { IsReady drawn.now.net found desk.old }
    ensures counts { IfOk result (λ tally. (words : List Verdict) × IsTally tally words
        × WroteVerdicts (sized drawn.now.net wanted.budget wanted.cert (printed_known desk.old.work.known)) drawn.now (at_rows found)
        (at_row tally.report (length drawn.now.rows) []) words (K.state sink.old) (K.state sink.new)) }
    ensures stops { OnErr result (WroteFront (sized drawn.now.net wanted.budget wanted.cert (printed_known desk.old.work.known)) drawn.now (at_rows found)
        (K.state sink.old) (K.state sink.new)) }
{
    let count = drawn.rows().len() as u32;
    write_item(&Item::Rows { count }, &mut desk.buffer, sink)?;
    let mut tally = Tally::start(found);
    for number in 0..count {
        let row = row_at(drawn, number);
        let end = print_row(number, row, found, drawn, wanted, desk, sink)?;
        tally = tally.after(end);
    }
    Ok(tally)
}
