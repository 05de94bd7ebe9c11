//! Writing the lines of a report.
#![tactic(auto, unfolding(crate::specs::Text::words_of))]

ghost use Rattle.std.specs.Prelude.{◌∷◌, [], List, codes, map};
ghost use Rattle.std.specs.List.{flat_map};
ghost use Rattle.itv_base.specs.Names.{name_view};
ghost use Rattle.itv_base.specs.Numerals.{number_text, signed_text};
ghost use Rattle.itv_base.specs.Outside.{Puts};
ghost use Rattle.line_words.specs.Lines.{ended, line_of, spaced};
ghost use Rattle.slack_report.specs.Entry.{bound, ending, event, finding, raise, row, slack, times, verdict};
ghost use Rattle.slack_report.specs.Items.{item_view};
ghost use Rattle.slack_report.specs.Step.Printed.{member_text};
ghost use Rattle.slack_report.specs.Text.{entry_text, members_from, which_word};

use crate::item::Item;
use crate::put_words::{put_asked, put_bound_words, put_verdict_words};
use crate::words::{EndWord, Which};
use certificate::write_line;
use itoa::Buffer;
use itv_base::{EventName, PutFailed, RowKind, Sink, end_text, number_text, put_all, signed_text};
use line_words::{LineBuffer, put_spaced, put_words};
use requirements::{Bound, Consistency, Slack, Verdict};

/// The room of the buffer for a line, in bytes. Each line of a report on a design within the limits is shorter, since a
/// time takes at most 21 bytes and an edge of a proof at most 23.
pub const LINE_ROOM: u32 = 524_288;

// ---- lines of a few words

// A word and a number.
fn put_count<K: Sink>(word: &[u8], count: u64, sink: &mut K) -> Result<(), PutFailed>
    ensures { Puts (K.state sink.old) (K.state sink.new) (ended (line_of (word.now ∷ number_text count ∷ []))) result }
{
    let mut digits = Buffer::new();
    put_words(word, &[number_text(count, &mut digits).as_bytes()], sink)
}

fn put_finding<K: Sink>(word: Consistency, sink: &mut K) -> Result<(), PutFailed>
    ensures { Puts (K.state sink.old) (K.state sink.new) (entry_text (finding word)) result }
{
    match word {
        Consistency::Consistent => put_words(b"finding", &[b"consistent"], sink),
        Consistency::Inconsistent => put_words(b"finding", &[b"inconsistent"], sink),
        Consistency::Open => put_words(b"finding", &[b"unsettled"], sink),
    }
}

fn put_verdict<K: Sink>(word: Verdict, sink: &mut K) -> Result<(), PutFailed>
    ensures { Puts (K.state sink.old) (K.state sink.new) (entry_text (verdict word)) result }
{
    sink.put(b"verdict")?;
    put_verdict_words(word, sink)?;
    sink.put(b"\n")
}

fn put_slack<K: Sink>(value: Slack, sink: &mut K) -> Result<(), PutFailed>
    ensures { Puts (K.state sink.old) (K.state sink.new) (entry_text (slack value)) result }
{
    let mut low = Buffer::new();
    let mut high = Buffer::new();
    put_words(
        b"slack",
        &[
            end_text(value.low, &mut low).as_bytes(),
            end_text(value.high, &mut high).as_bytes(),
        ],
        sink,
    )
}

fn put_end<K: Sink>(word: EndWord, sink: &mut K) -> Result<(), PutFailed>
    ensures { Puts (K.state sink.old) (K.state sink.new) (entry_text (ending word)) result }
{
    match word {
        EndWord::Pass => put_words(b"end", &[b"pass"], sink),
        EndWord::Fail => put_words(b"end", &[b"fail"], sink),
        EndWord::Inconsistent => put_words(b"end", &[b"inconsistent"], sink),
        EndWord::Undecided => put_words(b"end", &[b"undecided"], sink),
    }
}

fn put_which<K: Sink>(which: Which, sink: &mut K) -> Result<(), PutFailed>
    ensures { Puts (K.state sink.old) (K.state sink.new) (which_word which) result }
{
    match which {
        Which::Max => sink.put(b"max"),
        Which::Min => sink.put(b"min"),
    }
}

fn put_bound<K: Sink>(which: Which, value: Bound, sink: &mut K) -> Result<(), PutFailed>
    ensures { Puts (K.state sink.old) (K.state sink.new) (entry_text (bound which value)) result }
{
    put_which(which, sink)?;
    put_bound_words(value, sink)?;
    sink.put(b"\n")
}

// ---- lines with names

fn put_event<K: Sink>(number: u32, name: EventName<'_>, sink: &mut K) -> Result<(), PutFailed>
    ensures { Puts (K.state sink.old) (K.state sink.new) (entry_text (event number (name_view name.entry))) result }
{
    let mut digits = Buffer::new();
    let mut cycle = Buffer::new();
    put_all(
        sink,
        &[
            b"event ",
            number_text(u64::from(number), &mut digits).as_bytes(),
            b" ",
            name.part.as_bytes(),
            b".",
            &[name.mark],
            b"@",
            number_text(u64::from(name.cycle), &mut cycle).as_bytes(),
            b"\n",
        ],
    )
}

fn put_row<K: Sink>(
    number: u32,
    kind: &RowKind,
    from: EventName<'_>,
    to: EventName<'_>,
    sink: &mut K,
) -> Result<(), PutFailed>
    ensures { Puts (K.state sink.old) (K.state sink.new)
        (entry_text (row number kind.now (name_view from.entry) (name_view to.entry))) result }
{
    put_asked(number, kind, from, to, sink)?;
    sink.put(b"\n")
}

// ---- lines of many words

// A space and a number.
fn put_long<K: Sink>(value: &i64, sink: &mut K) -> Result<(), PutFailed>
    ensures { Puts (K.state sink.old) (K.state sink.new) (spaced (signed_text value.now)) result }
{
    let mut digits = Buffer::new();
    put_spaced(signed_text(*value, &mut digits).as_bytes(), sink)
}

// For each number a space and the number.
fn put_longs<K: Sink>(list: &[i64], sink: &mut K) -> Result<(), PutFailed>
    ensures { Puts (K.state sink.old) (K.state sink.new) (flat_map spaced (map signed_text list.now)) result }
{
    for value in list {
        put_long(value, sink)?;
    }
    Ok(())
}

fn put_times<K: Sink>(list: &[i64], sink: &mut K) -> Result<(), PutFailed>
    ensures { Puts (K.state sink.old) (K.state sink.new) (entry_text (times list.now)) result }
{
    sink.put(b"times")?;
    put_longs(list, sink)?;
    sink.put(b"\n")
}

// A space and the number of an event, if it is in a set.
fn put_member<K: Sink>(number: usize, is_in: bool, sink: &mut K) -> Result<(), PutFailed>
    ensures { Puts (K.state sink.old) (K.state sink.new) (member_text number is_in) result }
{
    if !is_in {
        return Ok(());
    }
    let mut digits = Buffer::new();
    put_spaced(number_text(number as u64, &mut digits).as_bytes(), sink)
}

fn put_members<K: Sink>(set: &[bool], sink: &mut K) -> Result<(), PutFailed>
    ensures { Puts (K.state sink.old) (K.state sink.new) (flat_map spaced (members_from 0 set.now)) result }
{
    for (number, is_in) in set.iter().enumerate() {
        put_member(number, *is_in, sink)?;
    }
    Ok(())
}

fn put_raise<K: Sink>(set: &[bool], sink: &mut K) -> Result<(), PutFailed>
    ensures { Puts (K.state sink.old) (K.state sink.new) (entry_text (raise set.now)) result }
{
    sink.put(b"raise")?;
    put_members(set, sink)?;
    sink.put(b"\n")
}

// ---- items

// Puts an item piece by piece.
fn put_item<K: Sink>(item: &Item<'_>, sink: &mut K) -> Result<(), PutFailed>
    ensures { Puts (K.state sink.old) (K.state sink.new) (entry_text (item_view item.now)) result }
{
    match item {
        Item::Heading => put_words(b"itv", &[b"report", b"1"], sink),
        Item::Budget { budget } => put_count(b"budget", *budget, sink),
        Item::Events { count } => put_count(b"events", u64::from(*count), sink),
        Item::Event { number, name } => put_event(*number, *name, sink),
        Item::Proof(line) => write_line(line, sink),
        Item::Finding(word) => put_finding(*word, sink),
        Item::Times(list) => put_times(list, sink),
        Item::Rows { count } => put_count(b"rows", u64::from(*count), sink),
        Item::Row {
            number,
            kind,
            from,
            to,
        } => put_row(*number, kind, *from, *to, sink),
        Item::Bound { which, bound } => put_bound(*which, *bound, sink),
        Item::Raise(set) => put_raise(set, sink),
        Item::Verdict(word) => put_verdict(*word, sink),
        Item::Slack(value) => put_slack(*value, sink),
        Item::End(word) => put_end(*word, sink),
    }
}

/// Writes a line of a report and its line end. It makes one put if the line fits the buffer, and otherwise puts the line
/// piece by piece. If a put failed, a front of the line was written, and the sink's count of faults rose. The old
/// content of the buffer is lost.
pub fn write_item<K: Sink>(
    item: &Item<'_>,
    buffer: &mut LineBuffer,
    sink: &mut K,
) -> Result<(), PutFailed>
    ensures puts { Puts (K.state sink.old) (K.state sink.new) (entry_text (item_view item.now)) result }
{
    buffer.clear();
    match put_item(item, buffer) {
        Ok(()) => buffer.put_into(sink),
        Err(PutFailed) => put_item(item, sink),
    }
}
