//! Checking the times after a verdict.

ghost use Rattle.std.specs.Prelude.{◌≡◌, ◌++◌, ℕ, ℤ, [], if◌then◌else◌, IfOk, List, codes};
ghost use Rattle.requirements.specs.declared.verdict.Verdict.TheVariants.{FailHigh, FailLow};
ghost use Rattle.slack_report.specs.Entry.{times as entry_times, verdict as entry_verdict};
ghost use Rattle.slack_report.specs.Text.{entry_text};
ghost use Rattle.right_report.specs.Right.ReportState.{is_fail as is_fail_word};
ghost use Rattle.job_settle.specs.Answers.{IsViolation, IsPastOf};
ghost use Rattle.job_settle.specs.Text.{judged_text};
ghost use Rattle.job_settle.specs.declared.row.RowFound.{RowFound};
ghost use Rattle.job_confirm.specs.Step.{Gives, IsSameBound};

use crate::check_stop::CheckStop;
use crate::reader::Reader;
use crate::times::{break_end, row_times_next};
use drawn_networks::Row;
use event_graph::Network;
use itv_base::{Range, RowKind};
use job_settle::{SettledBound, both_of};
use requirements::{Verdict, judge};
use right_report::is_fail;
use std::alloc::Global;

/// Reads and checks the times that stand next after the bounds of a row. If the verdict is a fail, the times must
/// break the requirement. Otherwise there are none. Refuses the first line at which they do not hold.
pub fn past_next(
    alloc: Global,
    net: &Network,
    row: &Row,
    greatest: &SettledBound,
    least: &SettledBound,
    reader: &mut Reader<'_>,
) -> Result<Vec<i64>, CheckStop>
    ensures past { IfOk result (λ past. (of_row : RowFound) → of_row ≡ record { greatest = greatest.now; least = least.now; past = past } → IsPastOf net.now row.now row.now.kind of_row) }
    ensures read { (shown : RowFound) → (more : List ℕ) → IsPastOf net.now row.now row.now.kind shown → IsSameBound shown.greatest greatest.now
        → IsSameBound shown.least least.now → reader.old.rest.now ≡ judged_text row.now.kind shown ++ more → Gives (λ past. past.items ≡ shown.past.items) result }
{
    match row.kind {
        RowKind::Ask => Ok(Vec::new(alloc)),
        RowKind::Req(range) => {
            let word = judge(range, &both_of(least, greatest));
            broken_next(alloc, net, row, range, word, reader)
        }
    }
}

// Reads and checks the times after a verdict that is a fail. After another verdict there are none.
fn broken_next(
    alloc: Global,
    net: &Network,
    row: &Row,
    range: Range,
    word: Verdict,
    reader: &mut Reader<'_>,
) -> Result<Vec<i64>, CheckStop>
    ensures past { IfOk result (λ past. IsViolation net.now row.now range word past.items) }
    ensures read { (past : List ℤ) → (more : List ℕ) → IsViolation net.now row.now range word past
        → reader.old.rest.now ≡ entry_text (entry_verdict word) ++ ((if is_fail_word word then entry_text (entry_times past) else []) ++ more)
        → Gives (λ found. found.items ≡ past) result }
{
    if !is_fail(word) {
        return Ok(Vec::new(alloc));
    }
    if !reader.passes(fail_line(word)) {
        return Err(reader.refused());
    }
    let times = row_times_next(alloc, net, row, reader)?;
    if !break_end(row, range, word, &times) {
        return Err(reader.refused());
    }
    Ok(times)
}

// The line of a verdict that is a fail.
fn fail_line(word: Verdict) -> &'static [u8]
    ensures low { word ≡ FailLow → result.now ≡ codes "verdict fail low" }
    ensures high { word ≡ FailHigh → result.now ≡ codes "verdict fail high" }
{
    match word {
        Verdict::FailLow => b"verdict fail low",
        _ => b"verdict fail high",
    }
}
