//! The keys of objects.

ghost use Rattle.std.specs.Prelude.{◌≡◌, [], ◌∷◌, ◌++◌, filter, map, OnOk};
ghost use Rattle.serde_json.specs.View.{view, members_view};
ghost use Rattle.json_tree.specs.Words.{members};
ghost use Rattle.json_tree.specs.NearKeys.{is_near, near_keys};

use crate::key::is_near;
use itv_base::{NoMemory, Texts};
use serde_json::{Map, Value};
use std::alloc::Global;

/// Puts the near keys of an object at the end. A value that is no object has none. If memory is not found, some of
/// them may be there.
pub(crate) fn push_near(
    alloc: Global,
    near: &mut Texts,
    known: &[&str],
    value: &Value,
) -> Result<(), NoMemory>
    ensures { OnOk result (near.new ≡ near.old ++ near_keys (map (λ k. k.now) known.now) (view value.now)) }
{
    match value.as_object() {
        Some(object) => push_near_of_members(alloc, near, known, object),
        None => Ok(()),
    }
}

// Puts the near keys among the keys of members at the end.
fn push_near_of_members(
    alloc: Global,
    near: &mut Texts,
    known: &[&str],
    object: &Map<String, Value>,
) -> Result<(), NoMemory>
    ensures { OnOk result (near.new ≡ near.old ++ filter (is_near (map (λ k. k.now) known.now)) (map (λ at. at.0) (members (members_view object.now.entries)))) }
{
    for (key, _) in object.iter() {
        push_if_near(alloc, near, known, key.as_str())?;
    }
    Ok(())
}

// Puts a key at the end if it is near.
fn push_if_near(alloc: Global, near: &mut Texts, known: &[&str], key: &str) -> Result<(), NoMemory>
    ensures { OnOk result (near.new ≡ near.old ++ filter (is_near (map (λ k. k.now) known.now)) (key.now ∷ [])) }
{
    if is_near(known, key) {
        near.push(alloc, key)?;
    }
    Ok(())
}
