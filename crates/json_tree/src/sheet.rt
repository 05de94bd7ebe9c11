//! The near keys of a sheet.

ghost use Rattle.std.specs.Prelude.{◌≡◌, ◌++◌, IfOk, OnOk};
ghost use Rattle.serde_json.specs.View.{view, items_view};
ghost use Rattle.json_tree.specs.NearKeys.{near_in_sheet, near_within};

use crate::objects::push_near;
use itv_base::{NoMemory, Texts};
use serde_json::Value;
use std::alloc::Global;

/// The near keys of a sheet, which are ignored and nearly are keys that are read: its own near keys, and then the
/// near keys of its lanes in order.
pub fn near_in_sheet(alloc: Global, tree: &Value) -> Result<Texts, NoMemory>
    ensures { IfOk result (λ keys. keys ≡ near_in_sheet (view tree.now)) }
{
    let mut near = Texts::new(alloc)?;
    push_near(alloc, &mut near, &["signal", "edge", "itv_grades"], tree)?;
    if let Some(signal) = tree.get("signal").and_then(Value::as_array) {
        push_near_within(alloc, &mut near, signal)?;
    }
    Ok(near)
}

// Puts the near keys of the lanes of a group's elements at the end. If memory is not found, some of them may be there.
fn push_near_within(alloc: Global, near: &mut Texts, group: &[Value]) -> Result<(), NoMemory>
    ensures { OnOk result (near.new ≡ near.old ++ near_within (items_view group.now)) }
{
    for element in group {
        match element {
            Value::Object(_) => push_near(alloc, near, &["name", "wave", "node"], element)?,
            Value::Array(inner) => push_near_within(alloc, near, inner)?,
            _ => {}
        }
    }
    Ok(())
}
