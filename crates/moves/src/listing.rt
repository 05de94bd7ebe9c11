//! The numbers of a drawing.

ghost use Rattle.std.specs.Prelude.{◌≡◌, ◌<◌, [], IfOk, OnOk, fold, length, zip};
ghost use Rattle.drawn_networks.specs.Drawn.{IsRowOf, name_of};
ghost use Rattle.drawn_numbers.specs.Numbers.{origins_of, part_of_target};
ghost use Rattle.moves.specs.Listed.{all_numbers_of, numbers_of, with_cause, with_kind};
ghost use Rattle.moves.specs.Step.{AreKeysOf, causes_at, with_key};

use crate::number_key::{NumberKey, NumberKeys, number_of, put_key};
use crate::number_seen::NumberSeen;
use crate::reading::{cause_of, origins_of, part_of_target, read_drawn};
use drawn_networks::{DrawnNetwork, Row};
use itv_base::{NoMemory, Range, RowKind};
use origin::Origin;
use std::alloc::Global;

/// The numbers that draw the causes of a drawn network, each with the range of its first cause, in the order of these first causes.
pub fn numbers_of(alloc: Global, drawn: &DrawnNetwork) -> Result<Vec<NumberSeen>, NoMemory>
    ensures numbers { IfOk result (λ seen. seen.items ≡ numbers_of drawn.now) }
{
    let mut keys = NumberKeys::new(alloc);
    keyed_numbers_of(alloc, drawn, &mut keys)
}

/// All numbers that draw a cause or a requirement of a drawn network: those that `numbers_of` gives, and then those that draw requirements alone, each with the
/// range of its first requirement.
pub fn all_numbers_of(alloc: Global, drawn: &DrawnNetwork) -> Result<Vec<NumberSeen>, NoMemory>
    ensures numbers { IfOk result (λ seen. seen.items ≡ all_numbers_of drawn.now) }
{
    let mut keys = NumberKeys::new(alloc);
    let mut seen = keyed_numbers_of(alloc, drawn, &mut keys)?;
    let rows = drawn.rows();
    for k in 0..rows.len() {
        add_row(alloc, drawn, rows.get(k), &mut keys, &mut seen)?;
    }
    Ok(seen)
}

// The numbers that draw the causes of a drawn network. Their keys are put into an empty table.
fn keyed_numbers_of<'a>(
    alloc: Global,
    drawn: &'a DrawnNetwork,
    keys: &mut NumberKeys<'a>,
) -> Result<Vec<NumberSeen>, NoMemory>
    requires keys { AreKeysOf [] keys.old }
    ensures numbers { IfOk result (λ seen. seen.items ≡ numbers_of drawn.now) }
    ensures keys { IfOk result (λ seen. AreKeysOf seen.items keys.new) }
{
    read_drawn(drawn);
    let mut seen = Vec::new(alloc);
    for constraint in 0..drawn.network().len() {
        add_causes(alloc, drawn, constraint, keys, &mut seen)?;
    }
    Ok(seen)
}

// Adds the number that draws a requirement, if none of the numbers draws it.
fn add_row<'a>(
    alloc: Global,
    drawn: &'a DrawnNetwork,
    row: &Row,
    keys: &mut NumberKeys<'a>,
    seen: &mut Vec<NumberSeen>,
) -> Result<(), NoMemory>
    requires row { IsRowOf drawn.now.net row.now }
    requires keys { AreKeysOf seen.old.items keys.old }
    ensures added { OnOk result (seen.new.items
        ≡ with_kind (name_of drawn.now row.now.from).part seen.old.items row.now.origin row.now.kind) }
    ensures keys { OnOk result (AreKeysOf seen.new.items keys.new) }
{
    match row.kind {
        RowKind::Ask => Ok(()),
        RowKind::Req(range) => {
            let part = drawn.name(row.from).part;
            add_number(alloc, part, range, row.origin, keys, seen)
        }
    }
}

// Adds the numbers that draw the causes of a constraint, each if none of the numbers draws the cause.
fn add_causes<'a>(
    alloc: Global,
    drawn: &'a DrawnNetwork,
    constraint: u32,
    keys: &mut NumberKeys<'a>,
    seen: &mut Vec<NumberSeen>,
) -> Result<(), NoMemory>
    requires there { constraint < length drawn.now.net.constraints }
    requires keys { AreKeysOf seen.old.items keys.old }
    ensures added { OnOk result (seen.new.items
        ≡ fold (with_cause (part_of_target drawn.now constraint)) seen.old.items (zip (causes_at drawn.now.net constraint) (origins_of drawn.now constraint))) }
    ensures keys { OnOk result (AreKeysOf seen.new.items keys.new) }
{
    read_drawn(drawn);
    let part = part_of_target(drawn, constraint);
    let origins = origins_of(drawn, constraint);
    for k in 0..origins.len() {
        let cause = cause_of(drawn, constraint, k as u32);
        add_number(alloc, part, cause.range, origins[k], keys, seen)?;
    }
    Ok(())
}

// Adds the number of a range that this draws, if none of the numbers draws it. The order of a lane is no number.
fn add_number<'a>(
    alloc: Global,
    part: &'a str,
    range: Range,
    origin: Origin,
    keys: &mut NumberKeys<'a>,
    seen: &mut Vec<NumberSeen>,
) -> Result<(), NoMemory>
    requires keys { AreKeysOf seen.old.items keys.old }
    ensures added { OnOk result (seen.new.items ≡ with_kind part.now seen.old.items origin (RowKind.Req range)) }
    ensures keys { OnOk result (AreKeysOf seen.new.items keys.new) }
{
    match origin {
        Origin::Lane(_) => Ok(()),
        Origin::Edge(edge) => add_key(alloc, NumberKey::Edge { edge, part }, range, keys, seen),
        Origin::Pin { net, .. } => add_key(alloc, NumberKey::Net(net), range, keys, seen),
        Origin::Wire(wire) => add_key(alloc, NumberKey::Wire(wire), range, keys, seen),
    }
}

// Adds the number of a key, if the key is new.
fn add_key<'a>(
    alloc: Global,
    key: NumberKey<'a>,
    range: Range,
    keys: &mut NumberKeys<'a>,
    seen: &mut Vec<NumberSeen>,
) -> Result<(), NoMemory>
    requires keys { AreKeysOf seen.old.items keys.old }
    ensures added { OnOk result (seen.new.items ≡ with_key seen.old.items key.entry range) }
    ensures keys { OnOk result (AreKeysOf seen.new.items keys.new) }
{
    let is_new = put_key(keys, key)?;
    if !is_new {
        return Ok(());
    }
    let number = number_of(alloc, key)?;
    seen.push(NumberSeen { number, range })?;
    Ok(())
}
