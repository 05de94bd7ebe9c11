//! The stray keys of a netlist.

ghost use Rattle.std.specs.Prelude.{◌≡◌, ◌++◌, map, IfOk, OnOk};
ghost use Rattle.serde_json.specs.View.{view};
ghost use Rattle.json_tree.specs.StrayKeys.{net_keys, part_keys, stray_from, stray_in_netlist, stray_of_nets, stray_of_parts};
ghost use Rattle.json_tree.specs.declared.key_place.KeyPlace.TheVariants as places;

use crate::key_place::KeyPlace;
use crate::stray_key::StrayKeys;
use crate::unknown::push_unknown;
use crate::values::list_at;
use itv_base::NoMemory;
use serde_json::Value;
use std::alloc::Global;

/// The stray keys of a netlist: its own keys that are not known, then those of its parts, and then those of its nets, in
/// order. A key that only version 2 reads is known in version 1 too. A value that is no object has no keys.
pub fn stray_in_netlist(alloc: Global, tree: &Value) -> Result<StrayKeys, NoMemory>
    ensures { IfOk result (λ keys. keys ≡ stray_in_netlist (view tree.now)) }
{
    let mut stray = StrayKeys::new(alloc);
    push_unknown(
        alloc,
        &mut stray,
        &["itv", "cycles", "parts", "nets", "edges"],
        KeyPlace::Netlist,
        tree,
    )?;
    push_of_parts(alloc, &mut stray, tree)?;
    push_of_nets(alloc, &mut stray, tree)?;
    Ok(stray)
}

// Puts the stray keys of the parts of a netlist at the end. If memory is not found, some of them may be there.
fn push_of_parts(alloc: Global, stray: &mut StrayKeys, tree: &Value) -> Result<(), NoMemory>
    ensures { OnOk result (stray.new ≡ stray.old ++ stray_of_parts (view tree.now)) }
{
    match list_at(tree, "parts") {
        Some(list) => push_of_each_part(alloc, stray, list),
        None => Ok(()),
    }
}

// Puts the stray keys of the elements of a list of parts at the end. If memory is not found, some of them may be there.
fn push_of_each_part(alloc: Global, stray: &mut StrayKeys, list: &[Value]) -> Result<(), NoMemory>
    ensures { OnOk result (stray.new ≡ stray.old ++ stray_from part_keys (λ n. places.Part n) 0 (map view list.now)) }
{
    for (n, part) in list.iter().enumerate() {
        push_unknown(
            alloc,
            stray,
            &["name", "sheet", "grade"],
            KeyPlace::Part(n as u64),
            part,
        )?;
    }
    Ok(())
}

// Puts the stray keys of the nets of a netlist at the end. If memory is not found, some of them may be there.
fn push_of_nets(alloc: Global, stray: &mut StrayKeys, tree: &Value) -> Result<(), NoMemory>
    ensures { OnOk result (stray.new ≡ stray.old ++ stray_of_nets (view tree.now)) }
{
    match list_at(tree, "nets") {
        Some(list) => push_of_each_net(alloc, stray, list),
        None => Ok(()),
    }
}

// Puts the stray keys of the elements of a list of nets at the end. If memory is not found, some of them may be there.
fn push_of_each_net(alloc: Global, stray: &mut StrayKeys, list: &[Value]) -> Result<(), NoMemory>
    ensures { OnOk result (stray.new ≡ stray.old ++ stray_from net_keys (λ n. places.Net n) 0 (map view list.now)) }
{
    for (n, net) in list.iter().enumerate() {
        push_unknown(
            alloc,
            stray,
            &["name", "pins", "delay"],
            KeyPlace::Net(n as u64),
            net,
        )?;
    }
    Ok(())
}
