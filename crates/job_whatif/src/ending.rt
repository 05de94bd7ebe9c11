//! The word at the end. It depends on the last state.

ghost use Rattle.std.specs.Prelude.{◌≡◌, ◌≤◌, All, length};
ghost use Rattle.right_report.specs.Right.ReportState.{tally_of};
ghost use Rattle.right_report.specs.RowTally.{with_rows};
ghost use Rattle.whatif.specs.declared.session.TheConstants.{MAX_PAIRS};
ghost use Rattle.job_whatif.specs.Step.{IsCountFor, IsNoteOf, IsTimed};
ghost use Rattle.job_whatif.specs.Text.{bounds_of, ending_of, last_note};

use crate::rows::both_of;
use itv_base::RowKind;
use requirements::{Bound, Consistency};
use right_report::ReportTally;
use slack_report::EndWord;
use whatif::Note;

/// The note of the last state: the last of `notes`, or `first` if there are none.
pub fn last_of<'a>(first: &'a Note, notes: &'a [Note]) -> &'a Note
    ensures last { result.now ≡ last_note first.now notes.now }
{
    match notes.last() {
        Some(note) => note,
        None => first,
    }
}

/// The word at the end, according to the note of the last state.
pub fn end_word(kinds: &[RowKind], note: &Note) -> EndWord
    requires of { IsNoteOf kinds.now note.now }
    requires few { length kinds.now ≤ MAX_PAIRS }
    ensures word { result ≡ ending_of kinds.now note.now.found note.now.answers }
{
    tally_rows(note.found, kinds, &note.answers).end_word()
}

// The tally of all rows after a finding.
fn tally_rows(word: Consistency, kinds: &[RowKind], answers: &[Bound]) -> ReportTally
    requires timed { All IsTimed answers.now }
    requires count { IsCountFor kinds.now answers.now }
    requires few { length kinds.now ≤ MAX_PAIRS }
    ensures tally { result ≡ with_rows (tally_of word) kinds.now (bounds_of answers.now) }
{
    let mut tally = ReportTally::new(word);
    if answers.is_empty() {
        return tally;
    }
    for k in 0..kinds.len() {
        let both = both_of(answers[2 * k], answers[2 * k + 1]);
        tally = tally.with_row(kinds[k], &both);
    }
    tally
}
