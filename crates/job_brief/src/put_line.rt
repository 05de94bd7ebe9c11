//! Putting a line.

ghost use Rattle.std.specs.Prelude.{◌∷◌, ◌++◌, [], codes};
ghost use Rattle.std.specs.List.{flat_map};
ghost use Rattle.itv_base.specs.Numerals.{end_text, number_text};
ghost use Rattle.itv_base.specs.Outside.{Puts};
ghost use Rattle.line_words.specs.Lines.{ended, line_of, spaced};
ghost use Rattle.slack_report.specs.Text.{bound_words};
ghost use Rattle.job_brief.specs.Lines.{cycle_words};
ghost use Rattle.job_brief.specs.Step.{back_words, counts_words, front_words, judgement_words, line_text, order_word, row_line_text, row_line_words};

use crate::judged::Judged;
use crate::line::{Line, RowLine};
use crate::put_cells::put_cells;
use crate::row_counts::RowCounts;
use itoa::Buffer;
use itv_base::{PutFailed, Sink, end_text, number_text, put_all};
use job_why::put_by;
use line_words::LineBuffer;
use requirements::{BothBounds, Slack};
use slack_report::{put_asked, put_bound_words, put_verdict_words};

/// Puts a line and its end. A line that fits the buffer is put at once, and any other line piece by piece. What the buffer held before is lost.
pub fn put_line<K: Sink>(
    line: &Line<'_>,
    buffer: &mut LineBuffer,
    sink: &mut K,
) -> Result<(), PutFailed>
    ensures puts { Puts (K.state sink.old) (K.state sink.new) (line_text line.now) result }
{
    buffer.clear();
    match put_pieces(line, buffer) {
        Ok(()) => buffer.put_into(sink),
        Err(PutFailed) => put_pieces(line, sink),
    }
}

// Puts a line piece by piece.
fn put_pieces<K: Sink>(line: &Line<'_>, sink: &mut K) -> Result<(), PutFailed>
    ensures { Puts (K.state sink.old) (K.state sink.new) (line_text line.now) result }
{
    match line {
        Line::Row(row) => put_run(row, sink),
        Line::Counts(counts) => put_counts(counts, sink),
    }
}

// Puts the line of a run, in a table or not.
fn put_run<K: Sink>(row: &RowLine<'_>, sink: &mut K) -> Result<(), PutFailed>
    ensures { Puts (K.state sink.old) (K.state sink.new) (row_line_text row.now.csv row.now) result }
{
    if row.csv {
        put_cells(row, sink)
    } else {
        put_row(row, sink)
    }
}

fn put_row<K: Sink>(row: &RowLine<'_>, sink: &mut K) -> Result<(), PutFailed>
    ensures { Puts (K.state sink.old) (K.state sink.new) (ended (line_of (row_line_words row.now))) result }
{
    put_front(row, sink)?;
    put_back(row, sink)?;
    put_cycles(row.from.cycle, row.last_cycle, sink)
}

// The line of a row up to and with its bounds.
fn put_front<K: Sink>(row: &RowLine<'_>, sink: &mut K) -> Result<(), PutFailed>
    ensures { Puts (K.state sink.old) (K.state sink.new) (line_of (codes "row" ∷ number_text row.now.number ∷ front_words row.now)) result }
{
    put_asked(row.number, &row.kind, row.from, row.to, sink)?;
    put_bounds(&row.both, sink)
}

// The least and the greatest separation.
fn put_bounds<K: Sink>(both: &BothBounds, sink: &mut K) -> Result<(), PutFailed>
    ensures { Puts (K.state sink.old) (K.state sink.new)
        (flat_map spaced (bound_words both.now.least ++ bound_words both.now.greatest)) result }
{
    put_bound_words(both.least, sink)?;
    put_bound_words(both.greatest, sink)
}

// The line of a row after its bounds.
fn put_back<K: Sink>(row: &RowLine<'_>, sink: &mut K) -> Result<(), PutFailed>
    ensures { Puts (K.state sink.old) (K.state sink.new) (flat_map spaced (back_words row.now)) result }
{
    put_judged(row.judged, sink)?;
    put_by(&row.by, sink)?;
    put_order(row.rests_on_order, sink)
}

// The judgement of a row, nothing for an ask.
fn put_judged<K: Sink>(judged: Option<Judged>, sink: &mut K) -> Result<(), PutFailed>
    ensures { Puts (K.state sink.old) (K.state sink.new) (flat_map spaced (judgement_words judged)) result }
{
    match judged {
        None => Ok(()),
        Some(judged) => put_verdict(&judged, sink),
    }
}

// A verdict and its slacks.
fn put_verdict<K: Sink>(judged: &Judged, sink: &mut K) -> Result<(), PutFailed>
    ensures { Puts (K.state sink.old) (K.state sink.new) (flat_map spaced (judgement_words (Some judged.now))) result }
{
    put_verdict_words(judged.word, sink)?;
    put_slack(&judged.slack, sink)
}

// A space and a word for each of two slacks.
fn put_slack<K: Sink>(slack: &Slack, sink: &mut K) -> Result<(), PutFailed>
    ensures { Puts (K.state sink.old) (K.state sink.new) (flat_map spaced (end_text slack.now.low ∷ end_text slack.now.high ∷ [])) result }
{
    let mut low = Buffer::new();
    let mut high = Buffer::new();
    put_all(
        sink,
        &[
            b" ",
            end_text(slack.low, &mut low).as_bytes(),
            b" ",
            end_text(slack.high, &mut high).as_bytes(),
        ],
    )
}

// A space and a word for an order that a verdict rests on.
fn put_order<K: Sink>(rests_on_order: bool, sink: &mut K) -> Result<(), PutFailed>
    ensures { Puts (K.state sink.old) (K.state sink.new) (flat_map spaced (order_word rests_on_order)) result }
{
    if rests_on_order {
        sink.put(b" order")
    } else {
        Ok(())
    }
}

// The cycles of a run of several rows, and the end of the line.
fn put_cycles<K: Sink>(first: u32, last: u32, sink: &mut K) -> Result<(), PutFailed>
    ensures { Puts (K.state sink.old) (K.state sink.new) (flat_map spaced (cycle_words first last) ++ 10 ∷ []) result }
{
    if first == last {
        return sink.put(b"\n");
    }
    let mut first_digits = Buffer::new();
    let mut last_digits = Buffer::new();
    put_all(
        sink,
        &[
            b" cycles ",
            number_text(u64::from(first), &mut first_digits).as_bytes(),
            b" to ",
            number_text(u64::from(last), &mut last_digits).as_bytes(),
            b"\n",
        ],
    )
}

fn put_counts<K: Sink>(counts: &RowCounts, sink: &mut K) -> Result<(), PutFailed>
    ensures { Puts (K.state sink.old) (K.state sink.new) (ended (line_of (counts_words counts.now))) result }
{
    put_passes(counts.rows, counts.pass, sink)?;
    put_fails(counts.fail, counts.undecided, sink)
}

// The line of counts up to the requirements that pass.
fn put_passes<K: Sink>(rows: u64, pass: u64, sink: &mut K) -> Result<(), PutFailed>
    ensures { Puts (K.state sink.old) (K.state sink.new)
        (line_of (codes "rows" ∷ number_text rows ∷ codes "pass" ∷ number_text pass ∷ [])) result }
{
    let mut rows_digits = Buffer::new();
    let mut pass_digits = Buffer::new();
    put_all(
        sink,
        &[
            b"rows ",
            number_text(rows, &mut rows_digits).as_bytes(),
            b" pass ",
            number_text(pass, &mut pass_digits).as_bytes(),
        ],
    )
}

// The line of counts after the requirements that pass, and its end.
fn put_fails<K: Sink>(fail: u64, undecided: u64, sink: &mut K) -> Result<(), PutFailed>
    ensures { Puts (K.state sink.old) (K.state sink.new)
        (flat_map spaced (codes "fail" ∷ number_text fail ∷ codes "undecided" ∷ number_text undecided ∷ []) ++ 10 ∷ []) result }
{
    let mut fail_digits = Buffer::new();
    let mut undecided_digits = Buffer::new();
    put_all(
        sink,
        &[
            b" fail ",
            number_text(fail, &mut fail_digits).as_bytes(),
            b" undecided ",
            number_text(undecided, &mut undecided_digits).as_bytes(),
            b"\n",
        ],
    )
}
