//! Writing what was found.

ghost use Rattle.std.specs.Prelude.{◌≡◌, ◌≤◌, ℕ, List, All, IfOk, OnErr};
ghost use Rattle.itv_base.specs.declared.limits.TheConstants.{MAX_BUDGET};
ghost use Rattle.itv_base.specs.Outside.{CutShort, grown};
ghost use Rattle.slack_report.specs.Entry.{IsName};
ghost use Rattle.job_bounds.specs.Reports.{HasRowRanges};
ghost use Rattle.job_base.specs.JobWrote.{Answered, JobWrote};
ghost use Rattle.design_reading.specs.Refusal.{refusal_text};
ghost use Rattle.redraw.specs.Drawing.{demand_of};
ghost use Rattle.redraw.specs.Text.{redrawn};
ghost use Rattle.job_redraw.specs.Redraw.{AnswersRedraw, Draws, AnswersEndWord};
ghost use Rattle.job_redraw.specs.Failed.{IsBroken, is_end_at, is_wide_on};
ghost use Rattle.job_redraw.specs.Step.{IsReportKept, ShowsFail, fail_view};

use crate::scan::{Fail, first_failed};
use crate::search::{KeptReport, searched};
use design_reading::{Refusal, RefusalPlace, put_refusal};
use drawn_networks::DrawnNetwork;
use itv_base::{END_LIMIT, PutFailed, Range, RowKind, Sink};
use job_base::{Answer, Unanswered, row_at};
use redraw::{DrawSpace, draw};
use requirements::Verdict;
use slack_report::{EndWord, Items};
use std::alloc::Global;

/// Searches a drawn network as job bounds does, with at most `budget` closed cases for each search. Writes the drawing of the first
/// row that fails, at times that break its requirement. Refuses the row if it breaks the widest end that a range may have, as no
/// drawing is past that end. If no row fails, the text says so. If no times satisfy the network, the text says that. All memory is
/// taken before the first put.
pub fn write_redraw<K: Sink>(
    alloc: Global,
    drawn: &DrawnNetwork,
    budget: u64,
    sink: &mut K,
) -> Result<Answer, Unanswered>
    requires least { 1 ≤ budget }
    requires most { budget ≤ MAX_BUDGET }
    requires names { All IsName drawn.now.names }
    requires ranges { HasRowRanges drawn.now }
    ensures works { JobWrote (AnswersRedraw drawn.now budget) (Answered (AnswersRedraw drawn.now budget))
        (K.state sink.old) (K.state sink.new) result }
{
    let mut work = DrawSpace::new(alloc)?;
    let search = searched(alloc, drawn, budget)?;
    Ok(put_answer(drawn, &search, &mut work, sink)?)
}

// Puts what a report gives, according to the word at its end.
fn put_answer<K: Sink>(
    drawn: &DrawnNetwork,
    search: &KeptReport,
    work: &mut DrawSpace,
    sink: &mut K,
) -> Result<Answer, PutFailed>
    requires fail { search.now.end ≡ EndWord.Fail → ShowsFail drawn.now search.now.report }
    ensures answers { IfOk result (λ answer. (text : List ℕ) × AnswersEndWord drawn.now search.now.report search.now.end answer text
        × (K.state sink.new ≡ grown (K.state sink.old) text)) }
    ensures begins { OnErr result ((answer : Answer) × (text : List ℕ) × AnswersEndWord drawn.now search.now.report search.now.end answer text
        × CutShort (K.state sink.old) (K.state sink.new) text) }
{
    match search.end {
        EndWord::Pass => put_text(b"nothing failed\n", Answer::AllPass, sink),
        EndWord::Fail => put_first(drawn, search.report.items(), work, sink),
        EndWord::Inconsistent => put_text(b"finding inconsistent\n", Answer::Inconsistent, sink),
        EndWord::Undecided => put_text(b"nothing failed\n", Answer::Undecided, sink),
    }
}

// Puts a text, and returns an answer.
fn put_text<K: Sink>(text: &[u8], answer: Answer, sink: &mut K) -> Result<Answer, PutFailed>
    ensures answer { IfOk result (λ given. (given ≡ answer) × (K.state sink.new ≡ grown (K.state sink.old) text.now)) }
    ensures cut { OnErr result (CutShort (K.state sink.old) (K.state sink.new) text.now) }
{
    sink.put(text)?;
    Ok(answer)
}

// Draws the first failed row of a report, or refuses it. The report has a failed row.
fn put_first<K: Sink>(
    drawn: &DrawnNetwork,
    items: &Items,
    work: &mut DrawSpace,
    sink: &mut K,
) -> Result<Answer, PutFailed>
    requires fail { ShowsFail drawn.now items.now }
    ensures answers { IfOk result (λ answer. (text : List ℕ) × Draws drawn.now items.now answer text
        × (K.state sink.new ≡ grown (K.state sink.old) text)) }
    ensures begins { OnErr result ((answer : Answer) × (text : List ℕ) × Draws drawn.now items.now answer text
        × CutShort (K.state sink.old) (K.state sink.new) text) }
{
    let Some(fail) = first_failed(items) else {
        unreachable!();
    };
    // The network has a name for each event.
    let _network = drawn.network();
    let row = row_at(drawn, fail.row);
    if is_wide(row.kind, fail.side) {
        put_wide(fail.row, sink)
    } else {
        put_drawing(drawn, fail, work, sink)
    }
}

// Refuses a row.
fn put_wide<K: Sink>(row: u32, sink: &mut K) -> Result<Answer, PutFailed>
    ensures answer { IfOk result (λ answer. (answer ≡ Answer.DesignRefused)
        × (K.state sink.new ≡ grown (K.state sink.old) (refusal_text RefusalPlace.Design (Refusal.Wide row)))) }
    ensures cut { OnErr result (CutShort (K.state sink.old) (K.state sink.new) (refusal_text RefusalPlace.Design (Refusal.Wide row))) }
{
    put_refusal(RefusalPlace::Design, Refusal::Wide(row), sink)?;
    Ok(Answer::DesignRefused)
}

// Draws a row.
fn put_drawing<K: Sink>(
    drawn: &DrawnNetwork,
    fail: Fail<'_>,
    work: &mut DrawSpace,
    sink: &mut K,
) -> Result<Answer, PutFailed>
    requires broken { IsBroken drawn.now (fail_view fail) }
    ensures answer { IfOk result (λ answer. (answer ≡ Answer.SomeFail)
        × (K.state sink.new ≡ grown (K.state sink.old) (redrawn drawn.now fail.entry.row fail.entry.times.now))) }
    ensures cut { OnErr result (CutShort (K.state sink.old) (K.state sink.new) (redrawn drawn.now fail.entry.row fail.entry.times.now)) }
{
    draw(drawn, fail.row, fail.times, work, sink)?;
    Ok(Answer::SomeFail)
}

// Whether the end that a row breaks on a side is so wide that no drawing can be past it.
fn is_wide(kind: RowKind, side: Verdict) -> bool
    ensures { result ≡ is_wide_on (demand_of kind) side }
{
    match kind {
        RowKind::Ask => false,
        RowKind::Req(range) => is_wide_on(range, side),
    }
}

// Whether the end of a range on a side is the limit of finite ends itself, or on the low side minus that limit.
fn is_wide_on(range: Range, side: Verdict) -> bool
    ensures { result ≡ is_wide_on range side }
{
    match side {
        Verdict::FailHigh => is_end_at(range.high(), END_LIMIT),
        Verdict::FailLow => is_end_at(range.low(), -END_LIMIT),
        Verdict::Pass | Verdict::Undecided => false,
    }
}

// Whether an end is a number.
fn is_end_at(end: Option<i64>, limit: i64) -> bool
    ensures { result ≡ is_end_at end limit }
{
    match end {
        None => false,
        Some(end) => end <= limit && limit <= end,
    }
}
