//! Reading a netlist from a tree.

ghost use Rattle.std.specs.Prelude.{◌≡◌, ◌≤◌, OnOk, IfOk, length};
ghost use Rattle.serde_json.specs.View.{view};
ghost use Rattle.netlist.specs.Fault.{is_memory};
ghost use Rattle.netlist.specs.Netlist.{edges_of, netlist_of, nets_of, parts_of, sheet_names, wires_of};
ghost use Rattle.itv_base.specs.Reading.{AgreesWith};

use crate::cycles::{read_cycles, read_version};
use crate::fault::NetlistFault;
use crate::netlist::Netlist;
use crate::nets::read_nets;
use crate::part::Parts;
use crate::parts::read_parts;
use crate::sheet_names::names_of_sheets;
use crate::tree::list_if;
use crate::wires::read_wires;
use crate::{Nets, Wires};
use itv_base::{MAX_PARTS, MAX_SHEET_NAMES, Texts};
use json_tree::{list_at, stray_in_netlist, strings_in};
use serde_json::Value;
use std::alloc::Global;

/// The netlist of a tree, or its first fault in the order of [`NetlistFault`].
///
/// A netlist is an object. `itv` is its version, 1 or 2, and `cycles` a whole number from 1 on. `parts` is a list of objects. Each has a `name`
/// and a `sheet`, and in version 2 may have a `grade`. `nets` may be missing. It is a list of objects. Each has `pins`, a list of texts as
/// `U1.ADDR`, and may have a `delay`, two ends in picoseconds (null is open). A missing `delay` is 0. It may also have a `name`. A name that is
/// no text counts as missing. `edges` may be missing. It is a list of wires as `U1.a U2.b @lin [0,250]`. A text without two spaces, or without
/// a label that begins with `@`, is a comment. What stands under any other key is not read, nor, in version 1, the `grade` of a part. The keys
/// that are not known in any version are kept: [`stray_in_netlist`] says which they are.
///
/// `NoMemory` may come in place of a netlist or a fault. After any fault no netlist was made.
pub fn read_netlist(alloc: Global, tree: &Value) -> Result<Netlist, NetlistFault>
    ensures answer { AgreesWith is_memory (λ netlist. netlist) result (netlist_of (view tree.now)) }
{
    let version = read_version(tree)?;
    let cycles = read_cycles(tree)?;
    let NamedParts { parts, sheet_names } = parts_of(alloc, version, tree)?;
    let nets = nets_of(alloc, tree)?;
    let wires = wires_of(alloc, tree)?;
    let edges = edges_of(alloc, tree)?;
    let stray = stray_in_netlist(alloc, tree)?;
    Ok(Netlist {
        version,
        cycles,
        parts,
        sheet_names,
        nets,
        wires,
        edges,
        stray,
    })
}

// Parts, and the distinct names of their sheets.
#[derive(Drop)]
struct NamedParts {
    parts: Parts,
    sheet_names: Texts,
}

// The parts of a tree, or their first fault.
fn parts_of(alloc: Global, version: u32, tree: &Value) -> Result<NamedParts, NetlistFault>
    ensures parts { AgreesWith is_memory (λ read. read.parts) result (parts_of version (view tree.now)) }
    ensures names { IfOk result (λ read. read.sheet_names ≡ sheet_names read.parts) }
{
    let Some(list) = list_at(tree, "parts") else {
        return Err(NetlistFault::PartsNotList);
    };
    let count = list.len() as u64;
    if count > MAX_PARTS {
        return Err(NetlistFault::TooManyParts(count));
    }
    let parts = read_parts(alloc, version, list)?;
    let sheet_names = names_of_sheets(alloc, parts.as_slice())?;
    if sheet_names.len() > MAX_SHEET_NAMES {
        return Err(NetlistFault::TooManySheets(sheet_names.len()));
    }
    Ok(NamedParts { parts, sheet_names })
}

// The nets of a tree, none where the tree has no key `nets`, or their first fault.
fn nets_of(alloc: Global, tree: &Value) -> Result<Nets, NetlistFault>
    ensures { AgreesWith is_memory (λ nets. nets) result (nets_of (view tree.now)) }
{
    let list = list_if(tree, "nets", NetlistFault::NetsNotList)?;
    read_nets(alloc, list)
}

// The wires of a tree, none where the tree has no key `edges`, or their first fault.
fn wires_of(alloc: Global, tree: &Value) -> Result<Wires, NetlistFault>
    ensures { AgreesWith is_memory (λ wires. wires) result (wires_of (view tree.now)) }
{
    let list = list_if(tree, "edges", NetlistFault::EdgesNotList)?;
    read_wires(alloc, list)
}

// The texts of the wires of a tree, none where the tree has no key `edges`, or a fault where no list stands there.
fn edges_of(alloc: Global, tree: &Value) -> Result<Texts, NetlistFault>
    ensures { AgreesWith is_memory (λ edges. edges) result (edges_of (view tree.now)) }
{
    let list = list_if(tree, "edges", NetlistFault::EdgesNotList)?;
    let texts = strings_in(alloc, list)?;
    Ok(texts)
}
