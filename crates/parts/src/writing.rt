//! Words of rows, and words of answers.

ghost use Rattle.std.specs.Prelude.{IsTrue, All};
ghost use Rattle.event_graph.specs.Times.{IsTime};

use crate::out::Out;
use itv_base::{EventId, Range};
use line_words::{long_in, open_in, short_in};
use std::alloc::Global;
use std::fmt::Display;

/// What a row asks about a pair of events: a word for what to print, the pair, and a budget or another number.
#[derive(Clone, Copy)]
pub struct PairQuestion<'a> {
    pub word: &'a str,
    pub from: EventId,
    pub to: EventId,
    pub number: i64,
}

/// Reads a row as in `answer 0 2 100`.
pub fn asked_of(row: &str) -> Option<PairQuestion<'_>> {
    let mut words = row.split(' ');
    Some(PairQuestion {
        word: words.next()?,
        from: EventId(short_in(words.next()?)?),
        to: EventId(short_in(words.next()?)?),
        number: long_in(words.next()?)?,
    })
}

/// The range with two ends as in `-5:*`. A star is an open end.
pub fn range_of(ends: &str) -> Option<Range> {
    let (low, high) = ends.split_once(':')?;
    Range::new(open_in(low)?, open_in(high)?).ok()
}

/// Numbers with a space between two. A star is the greatest number of 64 bits.
pub fn numbers_of(alloc: Global, text: &str) -> Option<Vec<i64>> {
    let mut numbers = Vec::new(alloc);
    for word in text.split_whitespace() {
        numbers.push(number_of(word)?).ok()?;
    }
    Some(numbers)
}

fn number_of(word: &str) -> Option<i64> {
    Some(open_in(word)?.unwrap_or(i64::MAX))
}

/// Whether a number is below 2^61 in absolute value.
pub fn is_time(value: i64) -> bool
    ensures { IsTrue result → IsTime value }
{
    let limit: i64 = 1 << 61;
    -limit < value && value < limit
}

/// Whether all numbers are below 2^61 in absolute value.
pub fn are_times(values: &[i64]) -> bool
    ensures { IsTrue result → All IsTime values.now }
{
    let limit: i64 = 1 << 61;
    values.iter().all(|&value| -limit < value && value < limit)
}

/// The bytes of a text. A line end is written `\n`, a carriage return `\r`, a space `\s`, and the byte 255, which is in no text, `\x`.
pub fn bytes_of(alloc: Global, text: &str) -> Option<Vec<u8>> {
    let mut bytes = Vec::new(alloc);
    let mut is_escape = false;
    for byte in text.bytes() {
        let meant = meant_by(is_escape, byte);
        is_escape = !is_escape && byte == b'\\';
        if !is_escape {
            bytes.push(meant).ok()?;
        }
    }
    Some(bytes)
}

// The byte that a byte means, which may stand after a backslash.
fn meant_by(is_escape: bool, byte: u8) -> u8 {
    match (is_escape, byte) {
        (true, b'n') => b'\n',
        (true, b'r') => b'\r',
        (true, b's') => b' ',
        (true, b'x') => 255,
        _ => byte,
    }
}

/// Writes a range as in `[-5,*]`.
pub fn put_range(range: Range, out: &mut Out) {
    out.put("[");
    out.put_end(range.low());
    out.put(",");
    out.put_end(range.high());
    out.put("]");
}

/// Writes numbers with a space between two, and a star for the greatest number of 64 bits.
pub fn put_numbers(numbers: &[i64], out: &mut Out) {
    for (place, &number) in numbers.iter().enumerate() {
        out.put(if place == 0 { "" } else { " " });
        out.put_end((number != i64::MAX).then_some(number));
    }
}

/// Writes a 1 for each flag that is set, and a 0 for each other flag.
pub fn put_flags(flags: &[bool], out: &mut Out) {
    for &flag in flags {
        out.put(if flag { "1" } else { "0" });
    }
}

/// Writes bytes that are text.
pub fn put_bytes(bytes: &[u8], out: &mut Out) {
    match str::from_utf8(bytes) {
        Ok(text) => out.put(text),
        Err(_) => out.refuse(),
    }
}

/// Writes a fault, or that a line was taken.
pub fn put_taken<E: Display + Drop>(taken: Result<(), E>, out: &mut Out) {
    match taken {
        Ok(()) => out.put("taken"),
        Err(fault) => out.put_shown(&fault),
    }
    out.put("\n");
}
