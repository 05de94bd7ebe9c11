//! Keys of the numbers of a drawing, and tables of those that were seen.

ghost use Rattle.std.specs.Prelude.{◌≡◌, IfOk, OnOk, if◌then◌else◌, not, true};
ghost use Rattle.std.specs.Bool.{OnFalse};
ghost use Rattle.moves.specs.Step.{has_key, key_number, same_number_key};
ghost use Rattle.moves.specs.declared.number_key.NumberKey.{NumberKey as KeySeen};

use drawn_numbers::DrawnNumber;
use itv_base::{NoMemory, Text};
use std::alloc::Global;
use std::collections::HashSet;

/// A number of a drawing as a key of a table: what a `DrawnNumber` says, with the name of the part lent.
#[derive(Clone, Copy, PartialEq, Eq, Hash)]
pub enum NumberKey<'a> {
    Edge { edge: u64, part: &'a str },
    Net(u64),
    Wire(u64),
}

/// The keys of the numbers that were seen.
pub type NumberKeys<'a> = HashSet<NumberKey<'a>>;

/// Puts a key into the table. The answer is whether it is new.
pub fn put_key<'a>(keys: &mut NumberKeys<'a>, key: NumberKey<'a>) -> Result<bool, NoMemory>
    ensures new { IfOk result (λ is_new. is_new ≡ not (has_key keys.old key.entry)) }
    ensures put { OnOk result ((other : KeySeen) → has_key keys.new other
        ≡ (if same_number_key key.entry other then true else has_key keys.old other)) }
    ensures known { IfOk result (λ is_new. OnFalse is_new ((other : KeySeen) → has_key keys.new other ≡ has_key keys.old other)) }
{
    let is_new = keys.insert(key)?;
    Ok(is_new)
}

/// The number of a key.
pub fn number_of(alloc: Global, key: NumberKey<'_>) -> Result<DrawnNumber, NoMemory>
    ensures number { IfOk result (λ number. number ≡ key_number key.entry) }
{
    match key {
        NumberKey::Edge { edge, part } => {
            let part = Text::from_text(alloc, part)?;
            Ok(DrawnNumber::Edge { part, edge })
        }
        NumberKey::Net(net) => Ok(DrawnNumber::Net(net)),
        NumberKey::Wire(wire) => Ok(DrawnNumber::Wire(wire)),
    }
}
