//! Writing each part of a text again from what was read of it, and comparing both. The functions return the place
//! after the part, and refuse the line of the first byte that differs.

ghost use Rattle.std.specs.Prelude.{◌≡◌, ◌<◌, ◌≤◌, ◌++◌, ℕ, List, true, Some, IfOk, drop, length, slice_get};
ghost use Rattle.itv_base.specs.Outside.{Puts};
ghost use Rattle.requirements.specs.Bounds.{HasTimes};
ghost use Rattle.slack_report.specs.Entry.{ending, row, rows};
ghost use Rattle.slack_report.specs.Text.{entry_text};
ghost use Rattle.drawn_networks.specs.Drawn.{IsRowOf, name_of};
ghost use Rattle.job_settle.specs.Answers.{AreFound, bound_of};
ghost use Rattle.job_settle.specs.Text.{bound_text, ending_of, finding_text, front_text, judged_text};
ghost use Rattle.job_confirm.specs.Step.{Gives, IsPieceAt};

use crate::check_stop::CheckStop;
use crate::draft::Draft;
use drawn_networks::{DrawnNetwork, Row};
use itv_base::{PutFailed, RowKind, Sink};
use job_base::put_row;
use job_settle::{
    Finding, RowFound, SettledBound, ending_of, put_bound, put_finding, put_front, put_judged,
};
use line_words::LineBuffer;
use slack_report::{EndWord, Item, Which, write_item};
use std::alloc::Global;

/// The place after the heading and the events.
pub fn behind_front(
    alloc: Global,
    drawn: &DrawnNetwork,
    text: &[u8],
    buffer: &mut LineBuffer,
) -> Result<usize, CheckStop>
    ensures behind { IfOk result (IsPieceAt text.now 0 (front_text drawn.now)) }
    ensures whole { (more : List ℕ) → text.now ≡ front_text drawn.now ++ more → Gives (λ behind. drop behind text.now ≡ more) result }
{
    let mut draft = Draft::new(alloc);
    put_front(drawn, buffer, &mut draft)?;
    draft.place_behind(text, 0)
}

/// The place after a finding.
pub fn behind_finding(
    alloc: Global,
    finding: &Finding,
    text: &[u8],
    place: usize,
    buffer: &mut LineBuffer,
) -> Result<usize, CheckStop>
    requires place { place ≤ length text.now }
    ensures behind { IfOk result (IsPieceAt text.now place (finding_text true finding.now)) }
    ensures whole { (more : List ℕ) → drop place text.now ≡ finding_text true finding.now ++ more → Gives (λ behind. drop behind text.now ≡ more) result }
{
    let mut draft = Draft::new(alloc);
    put_finding(true, finding, buffer, &mut draft)?;
    draft.place_behind(text, place)
}

/// The place after the number of rows.
pub fn behind_count(
    alloc: Global,
    drawn: &DrawnNetwork,
    text: &[u8],
    place: usize,
    buffer: &mut LineBuffer,
) -> Result<usize, CheckStop>
    requires place { place ≤ length text.now }
    ensures behind { IfOk result (IsPieceAt text.now place (entry_text (rows (length drawn.now.rows)))) }
    ensures whole { (more : List ℕ) → drop place text.now ≡ entry_text (rows (length drawn.now.rows)) ++ more → Gives (λ behind. drop behind text.now ≡ more) result }
{
    let mut draft = Draft::new(alloc);
    put_count(drawn, buffer, &mut draft)?;
    draft.place_behind(text, place)
}

fn put_count<K: Sink>(
    drawn: &DrawnNetwork,
    buffer: &mut LineBuffer,
    sink: &mut K,
) -> Result<(), PutFailed>
    ensures puts { Puts (K.state sink.old) (K.state sink.new) (entry_text (rows (length drawn.now.rows))) result }
{
    let count = drawn.rows().len() as u32;
    write_item(&Item::Rows { count }, buffer, sink)
}

/// The place after the line of a row.
pub fn behind_row(
    alloc: Global,
    drawn: &DrawnNetwork,
    number: u32,
    asked: &Row,
    text: &[u8],
    place: usize,
    buffer: &mut LineBuffer,
) -> Result<usize, CheckStop>
    requires place { place ≤ length text.now }
    requires row { IsRowOf drawn.now.net asked.now }
    ensures behind { IfOk result (IsPieceAt text.now place
        (entry_text (row number asked.now.kind (name_of drawn.now asked.now.from) (name_of drawn.now asked.now.to)))) }
    ensures whole { (more : List ℕ) → drop place text.now ≡ entry_text (row number asked.now.kind (name_of drawn.now asked.now.from) (name_of drawn.now asked.now.to)) ++ more → Gives (λ behind. drop behind text.now ≡ more) result }
{
    let mut draft = Draft::new(alloc);
    put_row(number, asked, drawn, buffer, &mut draft)?;
    draft.place_behind(text, place)
}

/// The place after a bound.
pub fn behind_bound(
    alloc: Global,
    which: Which,
    found: &SettledBound,
    text: &[u8],
    place: usize,
    buffer: &mut LineBuffer,
) -> Result<usize, CheckStop>
    requires place { place ≤ length text.now }
    ensures behind { IfOk result (IsPieceAt text.now place (bound_text true which found.now)) }
    ensures whole { (more : List ℕ) → drop place text.now ≡ bound_text true which found.now ++ more → Gives (λ behind. drop behind text.now ≡ more) result }
{
    let mut draft = Draft::new(alloc);
    put_bound(true, which, found, buffer, &mut draft)?;
    draft.place_behind(text, place)
}

/// The place after the verdict on a requirement, with its times and its slack. A row that only asks has no verdict.
pub fn behind_judged(
    alloc: Global,
    kind: RowKind,
    found: &RowFound,
    text: &[u8],
    place: usize,
    buffer: &mut LineBuffer,
) -> Result<usize, CheckStop>
    requires place { place ≤ length text.now }
    requires greatest { HasTimes (bound_of found.now.greatest) }
    requires least { HasTimes (bound_of found.now.least) }
    ensures behind { IfOk result (IsPieceAt text.now place (judged_text kind found.now)) }
    ensures whole { (more : List ℕ) → drop place text.now ≡ judged_text kind found.now ++ more → Gives (λ behind. drop behind text.now ≡ more) result }
{
    let mut draft = Draft::new(alloc);
    put_judged(kind, found, buffer, &mut draft)?;
    draft.place_behind(text, place)
}

/// The place after the word at the end.
pub fn behind_ending(
    alloc: Global,
    drawn: &DrawnNetwork,
    finding: &Finding,
    found: &[RowFound],
    text: &[u8],
    place: usize,
    buffer: &mut LineBuffer,
) -> Result<usize, CheckStop>
    requires place { place ≤ length text.now }
    requires found { AreFound true drawn.now.net drawn.now.rows finding.now found.now }
    ensures behind { IfOk result (IsPieceAt text.now place (entry_text (ending (ending_of drawn.now.rows finding.now found.now)))) }
    ensures whole { (more : List ℕ) → drop place text.now ≡ entry_text (ending (ending_of drawn.now.rows finding.now found.now)) ++ more → Gives (λ behind. drop behind text.now ≡ more) result }
{
    let mut draft = Draft::new(alloc);
    put_ending(ending_of(drawn, finding, found), buffer, &mut draft)?;
    draft.place_behind(text, place)
}

fn put_ending<K: Sink>(
    word: EndWord,
    buffer: &mut LineBuffer,
    sink: &mut K,
) -> Result<(), PutFailed>
    ensures puts { Puts (K.state sink.old) (K.state sink.new) (entry_text (ending word)) result }
{
    write_item(&Item::End(word), buffer, sink)
}
