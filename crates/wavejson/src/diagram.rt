//! A diagram, and how it is read from a tree.

ghost use Rattle.std.specs.Prelude.{◌≡◌, ◌↔◌, ℕ, Some, IsNone, IsOk, IsSome, IsSomeAnd, IsErrOf, position, codes};
ghost use Rattle.serde_json.specs.Find.{get, as_object};
ghost use Rattle.serde_json.specs.View.{view};
ghost use Rattle.itv_base.specs.Reading.{AgreesWith};
ghost use Rattle.json_tree.specs.Words.{list_at};
ghost use Rattle.wavejson.specs.Fault.{is_memory};
ghost use Rattle.wavejson.specs.Drawing.{diagram_of, signal_of, is_no_string};

use crate::edges::edge_list;
use crate::fault::DiagramFault;
use crate::lanes::{Lanes, read_lanes};
use itv_base::Texts;
use json_tree::{near_in_sheet, strings_in};
use serde_json::Value;
use std::alloc::Global;
use std::marker::Model;

/// The lanes, the edge texts and the near keys of a tree. Contracts see a drawing.
#[derive(Drop)]
pub struct Diagram {
    lanes: Lanes,
    edges: Texts,
    near: Texts,
}

impl Model for Diagram {
    ghost use Rattle.wavejson.specs.Drawing.{DiagramView};

    ghost Value = { DiagramView };

    ghost view = { λ d. record { lanes = d.lanes; edges = d.edges; near = d.near } };
}

impl Diagram {
    /// The lanes in order, groups flattened.
    pub fn lanes(&self) -> &Lanes
        ensures lanes { result.now ≡ self.now.lanes }
    {
        &self.lanes
    }

    /// The texts of `edge` in order, as they are written. A missing `edge` gives no texts.
    pub fn edges(&self) -> &Texts
        ensures edges { result.now ≡ self.now.edges }
    {
        &self.edges
    }

    /// The near keys of the tree, which are ignored and nearly are keys that are read: its own near keys, and then
    /// the near keys of its lanes in order.
    pub fn near(&self) -> &Texts
        ensures near { result.now ≡ self.now.near }
    {
        &self.near
    }
}

/// The diagram of a tree, or the first fault of the tree in the order of [`DiagramFault`]. Faults are found before memory is
/// taken, so `NoMemory` is returned only for a tree that has a drawing. Then nothing was made.
///
/// The objects in `signal` are lanes. An array there is a group, whose elements are read the same way at any depth. All else
/// in it is ignored, and so is the title of a group. In a lane only `name`, `wave` and `node` are read, in the tree only
/// `signal` and `edge`. Of the keys that are ignored the near ones are kept: [`near_in_sheet`] says which they are.
pub fn read_diagram(alloc: Global, tree: &Value) -> Result<Diagram, DiagramFault>
    ensures answer { AgreesWith is_memory (λ drawing. drawing) result (diagram_of (view tree.now)) }
    ensures memory { IsErrOf result DiagramFault.NoMemory → IsOk (diagram_of (view tree.now)) }

    // When each fault comes, in the order in which the faults are reported.
    ensures not_object { IsErrOf result DiagramFault.NotObject ↔ IsNone (as_object (view tree.now)) }
    ensures no_signal { IsErrOf result DiagramFault.NoSignal
        ↔ (IsSome (as_object (view tree.now)) × IsNone (signal_of (view tree.now))) }
    ensures edges_not_list { IsErrOf result DiagramFault.EdgesNotList
        ↔ (IsSome (signal_of (view tree.now)) × IsSome (get (codes "edge") (view tree.now))
        × IsNone (list_at (codes "edge") (view tree.now))) }
    ensures edge_not_text { (place : ℕ) → (IsErrOf result (DiagramFault.EdgeNotText place)
        ↔ (IsSome (signal_of (view tree.now))
        × IsSomeAnd (list_at (codes "edge") (view tree.now)) (λ edges. position is_no_string edges ≡ Some place))) }
{
    if !tree.is_object() {
        return Err(DiagramFault::NotObject);
    }
    let signal = tree
        .get("signal")
        .and_then(Value::as_array)
        .ok_or(DiagramFault::NoSignal)?;
    let edges = edge_list(tree)?;
    Ok(Diagram {
        lanes: read_lanes(alloc, signal)?,
        edges: strings_in(alloc, edges)?,
        near: near_in_sheet(alloc, tree)?,
    })
}
