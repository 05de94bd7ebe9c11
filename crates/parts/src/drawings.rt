//! Drawings of trees.

use crate::out::Out;
use itv_base::Text;
use serde_json::Value;
use std::alloc::Global;
use wavejson::{Diagram, DiagramFault, read_diagram};

/// Writes each lane of a tree as `name,wave,node;`, and after the lanes each edge text after a bar. A hyphen stands for an absent text. Or writes
/// the fault of the tree.
pub fn drawing(alloc: Global, row: &str, out: &mut Out) {
    match diagram_of(alloc, row) {
        Some(Ok(diagram)) => {
            put_drawing(&diagram, out);
            drop(diagram);
        }
        Some(Err(fault)) => out.put_shown(&fault),
        None => out.refuse(),
    }
}

/// The drawing of a row, or its fault, if the row is a tree.
pub fn diagram_of(alloc: Global, row: &str) -> Option<Result<Diagram, DiagramFault>> {
    match Value::from_str(alloc, row) {
        Ok(tree) => {
            let diagram = read_diagram(alloc, &tree);
            drop(tree);
            Some(diagram)
        }
        Err(_) => None,
    }
}

fn put_drawing(diagram: &Diagram, out: &mut Out) {
    for k in 0..diagram.lanes().len() {
        let lane = diagram.lanes().get(k);
        put_text(&lane.name, ",", out);
        put_text(&lane.wave, ",", out);
        put_text(&lane.node, ";", out);
    }
    for k in 0..diagram.edges().len() {
        out.put("|");
        out.put(diagram.edges().get(k).as_text());
    }
}

fn put_text(text: &Option<Text>, end: &str, out: &mut Out) {
    out.put(match text {
        Some(text) => text.as_text(),
        None => "-",
    });
    out.put(end);
}
