//! Reading the parts of a netlist.

ghost use Rattle.std.specs.Prelude.{◌≡◌, [], IfOk, map, option_map};
ghost use Rattle.std.specs.Option.{option_copied};
ghost use Rattle.serde_json.specs.View.{view};
ghost use Rattle.netlist.specs.Fault.{is_memory};
ghost use Rattle.netlist.specs.Netlist.{grade_of, is_part, part_of, with_part};
ghost use Rattle.itv_base.specs.Reading.{AgreesWith, walk};

use crate::fault::NetlistFault;
use crate::part::{Part, Parts};
use itv_base::{NoMemory, Text, is_name};
use json_tree::{name_of, owned_text, text_at};
use serde_json::Value;
use std::alloc::Global;

/// The parts of the elements of a list, or the first fault.
pub fn read_parts(alloc: Global, version: u32, list: &[Value]) -> Result<Parts, NetlistFault>
    ensures { AgreesWith is_memory (λ parts. parts) result (walk (with_part version) 0 [] (map view list.now)) }
{
    let mut parts = Parts::new(alloc);
    for (n, element) in list.iter().enumerate() {
        push_part(alloc, version, &mut parts, n as u64, element)?;
    }
    Ok(parts)
}

// Puts part n at the end, if the element is a part and no part before has its name.
fn push_part(
    alloc: Global,
    version: u32,
    parts: &mut Parts,
    n: u64,
    element: &Value,
) -> Result<(), NetlistFault>
    ensures { AgreesWith is_memory (λ _. parts.new) result (with_part version n parts.old (view element.now)) }
{
    let Some(part) = read_part(alloc, version, element)? else {
        return Err(NetlistFault::Part(n));
    };
    if is_part(parts.as_slice(), &part.name) {
        return Err(NetlistFault::DoublePart(n));
    }
    parts.push(part)?;
    Ok(())
}

// The part that an element is, if it is a part.
#[tactic(auto, unfolding(crate::specs::Netlist::part_of))]
fn read_part(alloc: Global, version: u32, element: &Value) -> Result<Option<Part>, NoMemory>
    ensures { IfOk result (λ part. part ≡ part_of version (view element.now)) }
{
    let Some(name) = text_at(element, "name") else {
        return Ok(None);
    };
    let Some(sheet) = text_at(element, "sheet") else {
        return Ok(None);
    };
    let Some(grade) = grade_of(version, element) else {
        return Ok(None);
    };
    if !is_name(name) {
        return Ok(None);
    }
    Ok(Some(Part {
        name: Text::from_text(alloc, name)?,
        sheet: Text::from_text(alloc, sheet)?,
        grade: owned_text(alloc, grade)?,
    }))
}

// The grade of a part, or no grade. In version 1 it is ignored. `None` if the grade does not have the form of a name.
fn grade_of(version: u32, element: &Value) -> Option<Option<&str>>
    ensures { option_map (λ grade. option_copied grade) result ≡ grade_of version (view element.now) }
{
    if version != 2 {
        return Some(None);
    }
    match element.get("grade") {
        Some(grade) => Some(Some(name_of(grade)?)),
        None => Some(None),
    }
}

fn is_part(parts: &[Part], name: &Text) -> bool
    ensures { result ≡ is_part parts.now name.now }
{
    parts.iter().any(|part| *name == part.name)
}
