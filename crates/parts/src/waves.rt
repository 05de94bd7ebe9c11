//! Kinds of a wave at a place.

use crate::out::Out;
use wave_string::{MarkKind, kind_at, may_join};

/// Writes the kind of a wave at a place, for a row as in `p.. 1`.
pub fn kind(row: &str, out: &mut Out) {
    match kind_of(row) {
        Some(kind) => put_kind(kind, out),
        None => out.refuse(),
    }
}

/// Writes whether two kinds may be joined, for a row of two waves with their places as in `01 1, 10 1`.
pub fn join(row: &str, out: &mut Out) {
    match is_joined(row) {
        Some(is_joined) => out.put(if is_joined { "joined" } else { "apart" }),
        None => out.refuse(),
    }
}

fn is_joined(row: &str) -> Option<bool> {
    let (first, second) = row.split_once(", ")?;
    Some(may_join(kind_of(first)?, kind_of(second)?))
}

fn kind_of(text: &str) -> Option<MarkKind> {
    let (wave, place) = text.rsplit_once(' ')?;
    Some(kind_at(wave, place.parse::<u64>().ok()?))
}

/// Writes the name of a kind.
pub fn put_kind(kind: MarkKind, out: &mut Out) {
    out.put(match kind {
        MarkKind::Bare => "bare",
        MarkKind::Rise => "rise",
        MarkKind::Fall => "fall",
        MarkKind::Change => "change",
        MarkKind::Steady => "steady",
    });
}
