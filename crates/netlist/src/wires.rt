//! Reading the wires of a netlist.

ghost use Rattle.std.specs.Prelude.{◌≡◌, [], map};
ghost use Rattle.label_grammar.specs.Wire.{wire_of};
ghost use Rattle.serde_json.specs.View.{view};
ghost use Rattle.netlist.specs.Fault.{is_memory};
ghost use Rattle.netlist.specs.Netlist.{seen_wire, wire_at, with_wire};
ghost use Rattle.itv_base.specs.Reading.{AgreesWith, walk};

use crate::fault::NetlistFault;
use crate::wire::{Wire, Wires};
use itv_base::Text;
use json_tree::owned_text;
use label_grammar::{WireText, read_label, read_wire};
use serde_json::Value;
use std::alloc::Global;

/// The wires of the elements of a list, or the first fault.
pub fn read_wires(alloc: Global, list: &[Value]) -> Result<Wires, NetlistFault>
    ensures { AgreesWith is_memory (λ wires. wires) result (walk with_wire 0 [] (map view list.now)) }
{
    let mut wires = Wires::new(alloc);
    for (n, element) in list.iter().enumerate() {
        push_wire(alloc, &mut wires, n as u64, element)?;
    }
    Ok(wires)
}

// Puts wire n at the end.
fn push_wire(alloc: Global, wires: &mut Wires, n: u64, element: &Value) -> Result<(), NetlistFault>
    ensures { AgreesWith is_memory (λ _. wires.new) result (with_wire n wires.old (view element.now)) }
{
    let Some(text) = element.as_str() else {
        return Err(NetlistFault::Edge(n));
    };
    wires.push(wire_of(alloc, n, text)?)?;
    Ok(())
}

// What the text of wire n says: nothing where it is a comment.
fn wire_of(alloc: Global, n: u64, text: &str) -> Result<Option<Wire>, NetlistFault>
    ensures { AgreesWith is_memory (λ wire. wire) result (seen_wire n (wire_of text.now)) }
{
    let (from_part, from_mark, to_part, to_mark, label) = match read_wire(text) {
        WireText::Comment => return Ok(None),
        WireText::Malformed => return Err(NetlistFault::Edge(n)),
        WireText::Timing {
            from_part,
            from_mark,
            to_part,
            to_mark,
            label,
        } => (from_part, from_mark, to_part, to_mark, label),
    };
    // A `match`, since a `?` on a value that holds a text beside a range gets no proof.
    let label = match read_label(label) {
        Ok(label) => label,
        Err(fault) => return Err(NetlistFault::Label(n, fault)),
    };
    Ok(Some(Wire {
        from_part: Text::from_text(alloc, from_part)?,
        from_mark,
        to_part: Text::from_text(alloc, to_part)?,
        to_mark,
        kind: label.kind,
        shift: label.shift,
        tag: owned_text(alloc, label.tag)?,
        range: label.range,
    }))
}
