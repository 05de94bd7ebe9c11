//! Putting a line of a table.

ghost use Rattle.std.specs.Prelude.{◌∷◌, ◌++◌, [], Some, map, true};
ghost use Rattle.std.specs.List.{concat, flat_map};
ghost use Rattle.itv_base.specs.Names.{name_view};
ghost use Rattle.itv_base.specs.Numerals.{end_text, number_text};
ghost use Rattle.itv_base.specs.Outside.{Puts};
ghost use Rattle.line_words.specs.Lines.{line_of};
ghost use Rattle.origin.specs.Text.{origin_text};
ghost use Rattle.slack_report.specs.Text.{bound_words, name_word, verdict_words};
ghost use Rattle.job_brief.specs.Step.{asked_cells, behind_comma, by_cells, found_cells, judgement_cells, last_cells, order_word, row_line_text};
ghost use Rattle.job_brief.specs.Table.{cells_end, doubled, in_quotes, kind_word, quoted, range_cells};

use crate::judged::Judged;
use crate::line::RowLine;
use itoa::Buffer;
use itv_base::{EventName, PutFailed, RowKind, Sink, end_text, number_text, put_all, signed_text};
use job_why::DrawnBy;
use origin::{Origin, put_origin};
use requirements::{Bound, Verdict};

/// Puts the line of a run of rows in a table, with its end.
pub fn put_cells<K: Sink>(row: &RowLine<'_>, sink: &mut K) -> Result<(), PutFailed>
    ensures puts { Puts (K.state sink.old) (K.state sink.new) (row_line_text true row.now) result }
{
    put_asked(row, sink)?;
    put_found(row, sink)?;
    put_by(&row.by, sink)?;
    put_last(row, sink)
}

// ---- what is asked

// The cells up to the range.
fn put_asked<K: Sink>(row: &RowLine<'_>, sink: &mut K) -> Result<(), PutFailed>
    ensures { Puts (K.state sink.old) (K.state sink.new) (number_text row.now.number ++ flat_map behind_comma (asked_cells row.now)) result }
{
    put_kind(row.number, &row.kind, sink)?;
    put_name(row.from, sink)?;
    put_name(row.to, sink)?;
    put_range(&row.kind, sink)
}

// The number and the kind of a row.
fn put_kind<K: Sink>(number: u32, kind: &RowKind, sink: &mut K) -> Result<(), PutFailed>
    ensures { Puts (K.state sink.old) (K.state sink.new) (number_text number ++ behind_comma (kind_word kind.now)) result }
{
    let mut room = Buffer::new();
    let digits = number_text(u64::from(number), &mut room).as_bytes();
    match kind {
        RowKind::Ask => put_all(sink, &[digits, b",ask"]),
        RowKind::Req(_) => put_all(sink, &[digits, b",req"]),
    }
}

// The name of an event.
fn put_name<K: Sink>(name: EventName<'_>, sink: &mut K) -> Result<(), PutFailed>
    ensures { Puts (K.state sink.old) (K.state sink.new) (behind_comma (quoted (name_word (name_view name.entry)))) result }
{
    let mut digits = Buffer::new();
    let cycle = number_text(u64::from(name.cycle), &mut digits);
    put_parts(name.part, name.mark, cycle, sink)
}

// The name of an event by its parts.
fn put_parts<K: Sink>(part: &str, mark: u8, cycle: &str, sink: &mut K) -> Result<(), PutFailed>
    ensures { Puts (K.state sink.old) (K.state sink.new) (behind_comma (quoted (part.now ++ (46 ∷ mark ∷ 64 ∷ cycle.now)))) result }
{
    put_named(part.as_bytes(), mark, cycle.as_bytes(), sink)
}

fn put_named<K: Sink>(part: &[u8], mark: u8, cycle: &[u8], sink: &mut K) -> Result<(), PutFailed>
    ensures { Puts (K.state sink.old) (K.state sink.new) (behind_comma (quoted (part.now ++ (46 ∷ mark ∷ 64 ∷ cycle.now)))) result }
{
    put_quoted(&[part, b".", &[mark], b"@", cycle], sink)
}

// The ends of a range, or the empty cells of an ask.
fn put_range<K: Sink>(kind: &RowKind, sink: &mut K) -> Result<(), PutFailed>
    ensures { Puts (K.state sink.old) (K.state sink.new) (flat_map behind_comma (range_cells kind.now)) result }
{
    match kind {
        RowKind::Ask => sink.put(b",,"),
        RowKind::Req(range) => put_ends(range.low(), range.high(), sink),
    }
}

// Two numbers, each a star where it is not there.
fn put_ends<K: Sink>(low: Option<i64>, high: Option<i64>, sink: &mut K) -> Result<(), PutFailed>
    ensures { Puts (K.state sink.old) (K.state sink.new) (flat_map behind_comma (end_text low ∷ end_text high ∷ [])) result }
{
    let mut low_digits = Buffer::new();
    let mut high_digits = Buffer::new();
    put_all(
        sink,
        &[
            b",",
            end_text(low, &mut low_digits).as_bytes(),
            b",",
            end_text(high, &mut high_digits).as_bytes(),
        ],
    )
}

// ---- what is found

// The cells of the bounds and of the judgement.
fn put_found<K: Sink>(row: &RowLine<'_>, sink: &mut K) -> Result<(), PutFailed>
    ensures { Puts (K.state sink.old) (K.state sink.new) (flat_map behind_comma (found_cells row.now)) result }
{
    put_bound(row.both.least, sink)?;
    put_bound(row.both.greatest, sink)?;
    put_judged(row.judged, sink)
}

// The words of a bound in one cell.
fn put_bound<K: Sink>(value: Bound, sink: &mut K) -> Result<(), PutFailed>
    ensures { Puts (K.state sink.old) (K.state sink.new) (behind_comma (line_of (bound_words value))) result }
{
    let mut limit_digits = Buffer::new();
    let mut digits = Buffer::new();
    match value {
        Bound::Closed(number) => {
            put_all(sink, &[b",", signed_text(number, &mut digits).as_bytes()])
        }
        Bound::Unbounded => sink.put(b",unbounded"),
        Bound::Within {
            limit,
            attained: None,
        } => put_all(
            sink,
            &[b",within ", end_text(limit, &mut limit_digits).as_bytes()],
        ),
        Bound::Within {
            limit,
            attained: Some(found),
        } => put_all(
            sink,
            &[
                b",within ",
                end_text(limit, &mut limit_digits).as_bytes(),
                b" found ",
                signed_text(found, &mut digits).as_bytes(),
            ],
        ),
    }
}

// A verdict and its slacks, or the empty cells of an ask.
fn put_judged<K: Sink>(judged: Option<Judged>, sink: &mut K) -> Result<(), PutFailed>
    ensures { Puts (K.state sink.old) (K.state sink.new) (flat_map behind_comma (judgement_cells judged)) result }
{
    match judged {
        None => sink.put(b",,,"),
        Some(judged) => put_verdict(&judged, sink),
    }
}

fn put_verdict<K: Sink>(judged: &Judged, sink: &mut K) -> Result<(), PutFailed>
    ensures { Puts (K.state sink.old) (K.state sink.new) (flat_map behind_comma (judgement_cells (Some judged.now))) result }
{
    put_word(judged.word, sink)?;
    put_ends(judged.slack.low, judged.slack.high, sink)
}

// The words of a verdict in one cell.
fn put_word<K: Sink>(word: Verdict, sink: &mut K) -> Result<(), PutFailed>
    ensures { Puts (K.state sink.old) (K.state sink.new) (behind_comma (line_of (verdict_words word))) result }
{
    match word {
        Verdict::Pass => sink.put(b",pass"),
        Verdict::FailHigh => sink.put(b",fail high"),
        Verdict::FailLow => sink.put(b",fail low"),
        Verdict::Undecided => sink.put(b",undecided"),
    }
}

// ---- what draws the row

// The cells of what draws the row, of its note, and of its grade.
fn put_by<K: Sink>(by: &DrawnBy<'_>, sink: &mut K) -> Result<(), PutFailed>
    ensures { Puts (K.state sink.old) (K.state sink.new) (flat_map behind_comma (by_cells by.now)) result }
{
    put_drawn(by.origin, sink)?;
    put_text(by.note, sink)?;
    put_text(by.grade, sink)
}

// An origin. It has no double quote.
fn put_drawn<K: Sink>(origin: Origin, sink: &mut K) -> Result<(), PutFailed>
    ensures { Puts (K.state sink.old) (K.state sink.new) (behind_comma (in_quotes (origin_text origin))) result }
{
    sink.put(b",\"")?;
    put_origin(origin, sink)?;
    sink.put(b"\"")
}

// ---- the rest

// The cells of the order and of the cycles, and the end of the line.
fn put_last<K: Sink>(row: &RowLine<'_>, sink: &mut K) -> Result<(), PutFailed>
    ensures { Puts (K.state sink.old) (K.state sink.new) (flat_map behind_comma (last_cells row.now) ++ cells_end) result }
{
    put_order(row.rests_on_order, sink)?;
    put_cycles(row.from.cycle, row.last_cycle, sink)
}

// A word for an order that a verdict rests on.
fn put_order<K: Sink>(rests_on_order: bool, sink: &mut K) -> Result<(), PutFailed>
    ensures { Puts (K.state sink.old) (K.state sink.new) (behind_comma (line_of (order_word rests_on_order))) result }
{
    if rests_on_order {
        sink.put(b",order")
    } else {
        sink.put(b",")
    }
}

// The first and the last cycle, and the end of the line.
fn put_cycles<K: Sink>(first: u32, last: u32, sink: &mut K) -> Result<(), PutFailed>
    ensures { Puts (K.state sink.old) (K.state sink.new) (flat_map behind_comma (number_text first ∷ number_text last ∷ []) ++ cells_end) result }
{
    let mut first_digits = Buffer::new();
    let mut last_digits = Buffer::new();
    put_all(
        sink,
        &[
            b",",
            number_text(u64::from(first), &mut first_digits).as_bytes(),
            b",",
            number_text(u64::from(last), &mut last_digits).as_bytes(),
            b"\r\n",
        ],
    )
}

// ---- quoted texts

// A text in double quotes.
fn put_text<K: Sink>(text: &str, sink: &mut K) -> Result<(), PutFailed>
    ensures { Puts (K.state sink.old) (K.state sink.new) (behind_comma (quoted text.now)) result }
{
    put_bytes(text.as_bytes(), sink)
}

fn put_bytes<K: Sink>(text: &[u8], sink: &mut K) -> Result<(), PutFailed>
    ensures { Puts (K.state sink.old) (K.state sink.new) (behind_comma (quoted text.now)) result }
{
    put_quoted(&[text], sink)
}

// A text of some pieces in double quotes.
fn put_quoted<K: Sink>(pieces: &[&[u8]], sink: &mut K) -> Result<(), PutFailed>
    ensures { Puts (K.state sink.old) (K.state sink.new) (behind_comma (quoted (concat (map (λ p. p.now) pieces.now)))) result }
{
    sink.put(b",\"")?;
    put_pieces(pieces, sink)?;
    sink.put(b"\"")
}

// Some pieces, with each double quote twice.
fn put_pieces<K: Sink>(pieces: &[&[u8]], sink: &mut K) -> Result<(), PutFailed>
    ensures { Puts (K.state sink.old) (K.state sink.new) (flat_map doubled (concat (map (λ p. p.now) pieces.now))) result }
{
    for piece in pieces {
        put_doubled(piece, sink)?;
    }
    Ok(())
}

// A text with each double quote twice.
fn put_doubled<K: Sink>(text: &[u8], sink: &mut K) -> Result<(), PutFailed>
    ensures { Puts (K.state sink.old) (K.state sink.new) (flat_map doubled text.now) result }
{
    for byte in text {
        put_byte(*byte, sink)?;
    }
    Ok(())
}

fn put_byte<K: Sink>(byte: u8, sink: &mut K) -> Result<(), PutFailed>
    ensures { Puts (K.state sink.old) (K.state sink.new) (doubled byte) result }
{
    if byte == b'"' {
        sink.put(b"\"\"")
    } else {
        sink.put(&[byte])
    }
}
