//! The keys of an object of a netlist that are not known.

ghost use Rattle.std.specs.Prelude.{◌≡◌, ◌++◌, map, OnOk};
ghost use Rattle.std.specs.List.{flat_map};
ghost use Rattle.serde_json.specs.View.{view, members_view};
ghost use Rattle.json_tree.specs.Words.{members};
ghost use Rattle.json_tree.specs.StrayKeys.{stray_if, stray_keys};

use crate::key::is_known;
use crate::key_place::KeyPlace;
use crate::stray_key::{StrayKey, StrayKeys};
use itv_base::{NoMemory, Text};
use serde_json::{Map, Value};
use std::alloc::Global;

/// Puts the keys of an object that are not known at the end, each with the place of the object. A value that is no
/// object has none. If memory is not found, some of them may be there.
pub(crate) fn push_unknown(
    alloc: Global,
    stray: &mut StrayKeys,
    known: &[&str],
    place: KeyPlace,
    value: &Value,
) -> Result<(), NoMemory>
    ensures { OnOk result (stray.new ≡ stray.old ++ stray_keys (map (λ k. k.now) known.now) place (view value.now)) }
{
    match value.as_object() {
        Some(object) => push_unknown_members(alloc, stray, known, place, object),
        None => Ok(()),
    }
}

// Puts the keys of members that are not known at the end.
fn push_unknown_members(
    alloc: Global,
    stray: &mut StrayKeys,
    known: &[&str],
    place: KeyPlace,
    object: &Map<String, Value>,
) -> Result<(), NoMemory>
    ensures { OnOk result (stray.new
        ≡ stray.old ++ flat_map (stray_if (map (λ k. k.now) known.now) place) (map (λ at. at.0) (members (members_view object.now.entries)))) }
{
    for (key, _) in object.iter() {
        push_if_unknown(alloc, stray, known, place, key.as_str())?;
    }
    Ok(())
}

// Puts a key at the end if it is not known.
fn push_if_unknown(
    alloc: Global,
    stray: &mut StrayKeys,
    known: &[&str],
    place: KeyPlace,
    key: &str,
) -> Result<(), NoMemory>
    ensures { OnOk result (stray.new ≡ stray.old ++ stray_if (map (λ k. k.now) known.now) place key.now) }
{
    if is_known(known, key) {
        return Ok(());
    }
    stray.push(StrayKey {
        place,
        key: Text::from_text(alloc, key)?,
    })
}
