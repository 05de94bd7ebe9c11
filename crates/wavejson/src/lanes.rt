//! The lanes of a diagram.

ghost use Rattle.std.specs.Prelude.{◌≡◌, ◌<◌, ◌++◌, Some, length, slice_get, IfOk, OnOk};
ghost use Rattle.serde_json.specs.View.{items_view};
ghost use Rattle.wavejson.specs.Drawing.{lanes_in};

use crate::lane_text::{LaneText, read_lane};
use itv_base::NoMemory;
use serde_json::Value;
use std::alloc::Global;
use std::marker::Model;

/// The lanes of a diagram in order. Contracts see a list of lanes.
#[derive(Drop)]
pub struct Lanes {
    items: Vec<LaneText>,
}

impl Model for Lanes {
    ghost use Rattle.std.specs.Prelude.{List};
    ghost use Rattle.wavejson.specs.declared.lane_text.LaneText.{LaneText};

    ghost Value = { List LaneText };

    ghost view = { λ lanes. lanes.items.items };
}

impl Lanes {
    /// How many lanes there are.
    pub fn len(&self) -> u64
        ensures count { result ≡ length self.now }
    {
        self.items.len() as u64
    }

    /// The lane at a place, counted from 0.
    pub fn get(&self, k: u64) -> &LaneText
        requires { k < length self.now }
        ensures lane { slice_get self.now k ≡ Some result.now }
    {
        &self.items[k as usize]
    }
}

/// The lanes of the elements of `signal`.
pub(crate) fn read_lanes(alloc: Global, signal: &[Value]) -> Result<Lanes, NoMemory>
    ensures { IfOk result (λ lanes. lanes ≡ lanes_in (items_view signal.now)) }
{
    let mut items = Vec::new(alloc);
    push_lanes(alloc, &mut items, signal)?;
    Ok(Lanes { items })
}

// Puts the lanes of a group's elements at the end. If memory is not found, some of them may be there.
fn push_lanes(alloc: Global, lanes: &mut Vec<LaneText>, group: &[Value]) -> Result<(), NoMemory>
    ensures { OnOk result (lanes.new.items ≡ lanes.old.items ++ lanes_in (items_view group.now)) }
{
    for element in group {
        match element {
            Value::Object(_) => lanes.push(read_lane(alloc, element)?)?,
            Value::Array(inner) => push_lanes(alloc, lanes, inner)?,
            _ => {}
        }
    }
    Ok(())
}
