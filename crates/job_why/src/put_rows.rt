//! Putting what is found of each row.

ghost use Rattle.std.specs.Prelude.{◌≡◌, All, length};
ghost use Rattle.itv_base.specs.Outside.{Puts};
ghost use Rattle.itv_base.specs.declared.row_kind.RowKind.TheVariants.{Req};
ghost use Rattle.line_words.specs.Lines.{ended, line_of};
ghost use Rattle.drawn_networks.specs.Drawn.{IsRowOf};
ghost use Rattle.explanations.specs.Answers.{HasRowTimes};
ghost use Rattle.job_why.specs.Step.{IsWritable};
ghost use Rattle.job_why.specs.Text.{apart_text, asked_words, judged_text, row_text, rows_text};

use crate::bound::both_of;
use crate::drawn_by::DrawnBy;
use crate::line::Line;
use crate::put_bounds::put_bound;
use crate::put_line::put_line;
use drawn_networks::{DrawnNetwork, Row};
use explanations::RowFound;
use itv_base::{PutFailed, Range, RowKind, Sink};
use job_base::row_at;
use line_words::LineBuffer;
use origin::Notes;
use requirements::{BothBounds, judge, slack};
use slack_report::{Item, Which, write_item};

/// Puts what is found of each row, in order.
pub fn put_rows<N: Notes, K: Sink>(
    notes: &N,
    drawn: &DrawnNetwork,
    found: &[RowFound],
    buffer: &mut LineBuffer,
    sink: &mut K,
) -> Result<(), PutFailed>
    requires count { length found.now ≡ length drawn.now.rows }
    requires writable { All (IsWritable drawn.now.net.events) found.now }
    ensures puts { Puts (K.state sink.old) (K.state sink.new) (rows_text (N.noted notes.now) drawn.now 0 drawn.now.rows found.now) result }
{
    for number in 0..drawn.rows().len() as u32 {
        let row = row_at(drawn, number);
        let of_row = &found[number as usize];
        put_found(number, row, notes, drawn, of_row, buffer, sink)?;
    }
    Ok(())
}

// Puts a row, its bounds, and the verdict on it.
fn put_found<N: Notes, K: Sink>(
    number: u32,
    row: &Row,
    notes: &N,
    drawn: &DrawnNetwork,
    found: &RowFound,
    buffer: &mut LineBuffer,
    sink: &mut K,
) -> Result<(), PutFailed>
    requires row { IsRowOf drawn.now.net row.now }
    requires writable { IsWritable drawn.now.net.events found.now }
    ensures puts { Puts (K.state sink.old) (K.state sink.new) (row_text (N.noted notes.now) drawn.now number row.now found.now) result }
{
    put_asked(number, row, notes, drawn, buffer, sink)?;
    put_bound(notes, drawn, Which::Max, &found.greatest, buffer, sink)?;
    put_bound(notes, drawn, Which::Min, &found.least, buffer, sink)?;
    put_judged(row.kind, found, buffer, sink)
}

// Puts what is asked of a row, and what draws it.
fn put_asked<N: Notes, K: Sink>(
    number: u32,
    row: &Row,
    notes: &N,
    drawn: &DrawnNetwork,
    buffer: &mut LineBuffer,
    sink: &mut K,
) -> Result<(), PutFailed>
    requires row { IsRowOf drawn.now.net row.now }
    ensures puts { Puts (K.state sink.old) (K.state sink.new)
        (ended (line_of (asked_words (N.noted notes.now) drawn.now number row.now))) result }
{
    let from = drawn.name(row.from);
    let line = Line::Row {
        number,
        kind: row.kind,
        from,
        to: drawn.name(row.to),
        by: DrawnBy::of_row(notes, from.part, row.origin),
    };
    put_line(&line, buffer, sink)
}

// Puts the verdict on a requirement, what it rests on, and the slack. An ask has none of these lines.
fn put_judged<K: Sink>(
    kind: RowKind,
    found: &RowFound,
    buffer: &mut LineBuffer,
    sink: &mut K,
) -> Result<(), PutFailed>
    requires times { HasRowTimes found.now }
    ensures puts { Puts (K.state sink.old) (K.state sink.new) (judged_text kind found.now) result }
{
    match kind {
        RowKind::Ask => Ok(()),
        RowKind::Req(range) => put_verdict(range, found, buffer, sink),
    }
}

// Puts the verdict, what it rests on, and the slack.
fn put_verdict<K: Sink>(
    range: Range,
    found: &RowFound,
    buffer: &mut LineBuffer,
    sink: &mut K,
) -> Result<(), PutFailed>
    requires times { HasRowTimes found.now }
    ensures puts { Puts (K.state sink.old) (K.state sink.new) (judged_text (Req range) found.now) result }
{
    let both = both_of(found);
    let word = judge(range, &both);
    write_item(&Item::Verdict(word), buffer, sink)?;
    put_apart(range, found.apart, buffer, sink)?;
    write_item(&Item::Slack(slack(range, &both)), buffer, sink)
}

// Puts the bounds and the verdict without the order of lanes, if the verdict rests on that order.
fn put_apart<K: Sink>(
    range: Range,
    apart: Option<BothBounds>,
    buffer: &mut LineBuffer,
    sink: &mut K,
) -> Result<(), PutFailed>
    ensures puts { Puts (K.state sink.old) (K.state sink.new) (apart_text range apart) result }
{
    match apart {
        None => Ok(()),
        Some(both) => {
            let word = judge(range, &both);
            put_line(&Line::Order { both, word }, buffer, sink)
        }
    }
}
