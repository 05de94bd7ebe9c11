//! The kind of a mark in a wave.

ghost use Rattle.std.specs.Prelude.{◌≡◌};
ghost use Rattle.std.specs.Str.{chars};
ghost use Rattle.wave_string.specs.Kinds.{brick_kind, kind_of, transition};

use crate::class::{Class, continues};
use crate::mark_kind::MarkKind;

/// The kind of the mark at a place of a wave.
///
/// Any text is a wave. Each of its characters is a brick, and places are counted from 0 in characters, not in bytes. Past the last
/// brick, and so everywhere in the empty wave, the kind is `Bare`.
pub fn kind_at(wave: &str, place: u64) -> MarkKind
    ensures { result ≡ kind_of (chars wave.now) place }
{
    // Of the bricks before the place, the rule needs only the class in effect after them.
    let mut before = Class::Unknown;
    for (index, character) in wave.chars().enumerate() {
        let here = before.followed_by(character);
        if index as u64 == place {
            return brick_kind(place, character, before, here);
        }
        before = here;
    }
    MarkKind::Bare
}

/// The kind at a brick with this place and character. The class `before` is in effect at the brick before it, and `here` at the
/// brick itself.
fn brick_kind(place: u64, character: char, before: Class, here: Class) -> MarkKind
    ensures { result ≡ brick_kind place character before here }
{
    match here {
        Class::PositiveClock => MarkKind::Rise,
        Class::NegativeClock => MarkKind::Fall,
        _ if place == 0 => MarkKind::Bare,
        _ if continues(character) => MarkKind::Steady,
        _ => transition(before.at_end(), here),
    }
}

/// The kind if one brick ends with the class `ended` and the next begins with the class `begun`.
fn transition(ended: Class, begun: Class) -> MarkKind
    ensures { result ≡ transition ended begun }
{
    match (ended, begun) {
        (Class::Low, Class::High) => MarkKind::Rise,
        (Class::High, Class::Low) => MarkKind::Fall,
        (Class::Low, Class::Low)
        | (Class::High, Class::High)
        | (Class::Floating, Class::Floating)
        | (Class::WeakUp, Class::WeakUp)
        | (Class::WeakDown, Class::WeakDown)
        | (Class::Unknown, Class::Unknown) => MarkKind::Steady,
        _ => MarkKind::Change,
    }
}
