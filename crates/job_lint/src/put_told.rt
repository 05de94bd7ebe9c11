//! Putting what a reader knows places by.

ghost use Rattle.std.specs.Prelude.{◌≡◌};
ghost use Rattle.std.specs.List.{filter, flat_map};
ghost use Rattle.itv_base.specs.Outside.{Puts};
ghost use Rattle.line_words.specs.Lines.{spaced};
ghost use Rattle.design_plan.specs.Notes.{is_printed_byte};
ghost use Rattle.job_lint.specs.Step.Put.{told_by};
ghost use Rattle.job_lint.specs.Text.{both_words, source_text, stroke_between, whole_text, word_if_any};

use crate::parts::text_at;
use crate::piece::{PartPlace, Told};
use crate::printed::{is_any_printed, put_printed};
use design_plan::Plan;
use itv_base::{PutFailed, Sink};
use origin::{Notes, Origin};

/// Puts a space and a word for each word at the end of a line.
pub fn put_told<K: Sink>(plan: &Plan, told: Told<'_>, sink: &mut K) -> Result<(), PutFailed>
    ensures puts { Puts (K.state sink.old) (K.state sink.new) (flat_map spaced (told_by plan.now told.entry)) result }
{
    match told {
        Told::Nothing => Ok(()),
        Told::One(place) => put_word(source_text(plan, place).as_bytes(), sink),
        Told::Two(first, other) => {
            let first = source_text(plan, first).as_bytes();
            let other = source_text(plan, other).as_bytes();
            put_both(first, other, sink)
        }
    }
}

// Puts the words of two texts, with a stroke between them, without what can't be printed.
fn put_both<K: Sink>(first: &[u8], other: &[u8], sink: &mut K) -> Result<(), PutFailed>
    ensures { Puts (K.state sink.old) (K.state sink.new)
        (flat_map spaced (both_words (filter is_printed_byte first.now) (filter is_printed_byte other.now))) result }
{
    put_word(first, sink)?;
    put_stroke(first, other, sink)?;
    put_word(other, sink)
}

// Puts a stroke between two texts, if both have something to print.
fn put_stroke<K: Sink>(first: &[u8], other: &[u8], sink: &mut K) -> Result<(), PutFailed>
    ensures { Puts (K.state sink.old) (K.state sink.new)
        (flat_map spaced (stroke_between (filter is_printed_byte first.now) (filter is_printed_byte other.now))) result }
{
    if !is_any_printed(first) {
        return Ok(());
    }
    if !is_any_printed(other) {
        return Ok(());
    }
    sink.put(b" /")
}

// Puts a space and a text without what can't be printed, if something is left.
fn put_word<K: Sink>(text: &[u8], sink: &mut K) -> Result<(), PutFailed>
    ensures { Puts (K.state sink.old) (K.state sink.new) (flat_map spaced (word_if_any (filter is_printed_byte text.now))) result }
{
    if !is_any_printed(text) {
        return Ok(());
    }
    sink.put(b" ")?;
    put_printed(text, sink)
}

// The note of a place, or where there is none its whole text.
fn source_text<'a>(plan: &'a Plan, place: PartPlace<'_>) -> &'a str
    ensures { result.now ≡ source_text plan.now place.entry.part.now place.entry.origin }
{
    let note = plan.note(place.part, place.origin);
    if note.is_empty() {
        whole_text(plan, place)
    } else {
        note
    }
}

// The whole text of an edge of a sheet or of the netlist.
fn whole_text<'a>(plan: &'a Plan, place: PartPlace<'_>) -> &'a str
    ensures { result.now ≡ whole_text plan.now place.entry.part.now place.entry.origin }
{
    match place.origin {
        Origin::Edge(n) => match plan.edge_named(place.part, n) {
            Some(text) => text,
            None => "",
        },
        Origin::Wire(n) => text_at(plan.netlist().edges(), n),
        Origin::Lane(_) | Origin::Pin { .. } => "",
    }
}
