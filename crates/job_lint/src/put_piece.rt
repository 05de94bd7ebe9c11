//! Putting pieces of lines.

ghost use Rattle.std.specs.Prelude.{neg_ℤ, ◌++◌, ◌∷◌, map};
ghost use Rattle.std.specs.List.{filter, flat_map};
ghost use Rattle.itv_base.specs.Outside.{Puts};
ghost use Rattle.itv_base.specs.Numerals.{number_text, signed_text};
ghost use Rattle.line_words.specs.Lines.{spaced};
ghost use Rattle.origin.specs.Text.{origin_text};
ghost use Rattle.design_plan.specs.Notes.{is_printed_byte};
ghost use Rattle.job_lint.specs.Step.Put.{marked_word, piece_word};
ghost use Rattle.job_lint.specs.Text.{place_word};

use crate::piece::{PartPlace, Piece};
use crate::printed::put_printed;
use itoa::Buffer;
use itv_base::{PutFailed, Sink, number_text, put_all, signed_text};
use line_words::put_spaced;
use origin::{Origin, put_origin};

/// Puts a space and a word for each piece.
pub fn put_pieces<K: Sink>(pieces: &[Piece<'_>], sink: &mut K) -> Result<(), PutFailed>
    ensures puts { Puts (K.state sink.old) (K.state sink.new) (flat_map spaced (map piece_word pieces.now)) result }
{
    for piece in pieces {
        put_piece(piece, sink)?;
    }
    Ok(())
}

// Puts a space and the word of a piece.
fn put_piece<K: Sink>(piece: &Piece<'_>, sink: &mut K) -> Result<(), PutFailed>
    ensures puts { Puts (K.state sink.old) (K.state sink.new) (spaced (piece_word piece.now)) result }
{
    match piece {
        Piece::Key(word) => put_spaced(word, sink),
        Piece::Printed(text) => put_text(text, sink),
        Piece::Place(place) => put_place(*place, sink),
        Piece::Drawn(origin) => put_drawn(*origin, sink),
        Piece::Mark(part, name) => put_mark(part, *name, sink),
        Piece::Time(value) => put_time(*value, sink),
        Piece::Minus(value) => put_minus(*value, sink),
        Piece::Count(number) => put_count(*number, sink),
    }
}

// Puts a space and the bytes of a text that can be printed.
fn put_text<K: Sink>(text: &[u8], sink: &mut K) -> Result<(), PutFailed>
    ensures puts { Puts (K.state sink.old) (K.state sink.new) (spaced (filter is_printed_byte text.now)) result }
{
    sink.put(b" ")?;
    put_printed(text, sink)
}

// Puts a space and what draws something, after the name of its part if it has one.
fn put_place<K: Sink>(place: PartPlace<'_>, sink: &mut K) -> Result<(), PutFailed>
    ensures puts { Puts (K.state sink.old) (K.state sink.new) (spaced (place_word place.entry.part.now place.entry.origin)) result }
{
    match place.origin {
        Origin::Lane(_) | Origin::Edge(_) => put_behind(place.part, place.origin, sink),
        Origin::Pin { .. } | Origin::Wire(_) => put_drawn(place.origin, sink),
    }
}

// Puts a space, the name of a part, and what draws something of it.
fn put_behind<K: Sink>(part: &str, origin: Origin, sink: &mut K) -> Result<(), PutFailed>
    ensures puts { Puts (K.state sink.old) (K.state sink.new) (spaced (part.now ++ (32 ∷ origin_text origin))) result }
{
    put_spaced(part.as_bytes(), sink)?;
    put_drawn(origin, sink)
}

// Puts a space and what draws something.
fn put_drawn<K: Sink>(origin: Origin, sink: &mut K) -> Result<(), PutFailed>
    ensures puts { Puts (K.state sink.old) (K.state sink.new) (spaced (origin_text origin)) result }
{
    sink.put(b" ")?;
    put_origin(origin, sink)
}

// Puts a space and a mark after the name of its part.
fn put_mark<K: Sink>(part: &str, name: Option<u8>, sink: &mut K) -> Result<(), PutFailed>
    ensures puts { Puts (K.state sink.old) (K.state sink.new) (spaced (marked_word part.now name)) result }
{
    match name {
        Some(name) => put_all(sink, &[b" ", part.as_bytes(), b".", &[name]]),
        None => put_all(sink, &[b" ", part.as_bytes(), b"."]),
    }
}

// Puts a space and a number of picoseconds.
fn put_time<K: Sink>(value: i64, sink: &mut K) -> Result<(), PutFailed>
    ensures puts { Puts (K.state sink.old) (K.state sink.new) (spaced (signed_text value)) result }
{
    let mut digits = Buffer::new();
    let value = signed_text(value, &mut digits);
    put_spaced(value.as_bytes(), sink)
}

// Puts a space and minus a number of picoseconds.
fn put_minus<K: Sink>(value: i64, sink: &mut K) -> Result<(), PutFailed>
    ensures puts { Puts (K.state sink.old) (K.state sink.new) (spaced (signed_text (neg_ℤ value))) result }
{
    let mut digits = Buffer::new();
    let size = number_text(value.unsigned_abs(), &mut digits);
    if value > 0 {
        put_all(sink, &[b" -", size.as_bytes()])
    } else {
        put_spaced(size.as_bytes(), sink)
    }
}

// Puts a space and a number.
fn put_count<K: Sink>(number: u64, sink: &mut K) -> Result<(), PutFailed>
    ensures puts { Puts (K.state sink.old) (K.state sink.new) (spaced (number_text number)) result }
{
    let mut digits = Buffer::new();
    let number = number_text(number, &mut digits);
    put_spaced(number.as_bytes(), sink)
}
