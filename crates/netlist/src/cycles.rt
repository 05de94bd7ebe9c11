//! The version and the number of cycles of a netlist.

ghost use Rattle.std.specs.Prelude.{◌≡◌};
ghost use Rattle.serde_json.specs.View.{view};
ghost use Rattle.netlist.specs.Fault.{is_memory};
ghost use Rattle.netlist.specs.Netlist.{cycles_from, cycles_of, version_from, version_of};
ghost use Rattle.itv_base.specs.Reading.{AgreesWith};

use crate::fault::NetlistFault;
use itv_base::MAX_CYCLES;
use json_tree::whole_at;
use serde_json::Value;

/// The version of an object, or the first fault: the tree is no object, or its version is not 1 or 2.
#[tactic(auto, unfolding(crate::specs::Netlist::version_of))]
pub fn read_version(tree: &Value) -> Result<u32, NetlistFault>
    ensures { AgreesWith is_memory (λ version. version) result (version_of (view tree.now)) }
{
    if !tree.is_object() {
        return Err(NetlistFault::NotObject);
    }
    whole_at(tree, "itv")
        .and_then(version_from)
        .ok_or(NetlistFault::Version)
}

/// The number of cycles of a tree, or its fault.
#[tactic(auto, unfolding(crate::specs::Netlist::cycles_of))]
pub fn read_cycles(tree: &Value) -> Result<u32, NetlistFault>
    ensures { AgreesWith is_memory (λ cycles. cycles) result (cycles_of (view tree.now)) }
{
    whole_at(tree, "cycles")
        .and_then(cycles_from)
        .ok_or(NetlistFault::Cycles)
}

// The version that a number stands for, if it is 1 or 2.
fn version_from(number: i64) -> Option<u32>
    ensures { result ≡ version_from number }
{
    match number {
        1 => Some(1),
        2 => Some(2),
        _ => None,
    }
}

// The number of cycles, if so many may be drawn.
fn cycles_from(number: i64) -> Option<u32>
    ensures { result ≡ cycles_from number }
{
    if 1 <= number && number <= MAX_CYCLES as i64 {
        Some(number as u32)
    } else {
        None
    }
}
