//! Why a file of a design is refused.

use crate::edge::put_no_text;
use crate::grades_fault::put_grades_fault;
use crate::hint::Hint;
use crate::json_fault::put_json_fault;
use crate::netlist_fault::put_netlist_fault;
use crate::sheet_fault::{RefusedSheet, put_sheet_fault};
use crate::source::{Source, bytes_of};
use crate::tree::put_about_key;
use design_reading::Refusal;
use itv_base::Shelf;
use json_places::Step;
use netlist::Netlist;
use serde_json::Value;
use wavejson::DiagramFault;

/// Why the file of a name is refused. `netlist` names it as a sheet, if it is not the design.
pub fn put_file_fault<H: Shelf>(
    hint: &mut Hint,
    name: &str,
    netlist: Option<&Netlist>,
    why: Refusal,
    shelf: &mut H,
) {
    if let Some(bytes) = bytes_of(hint.alloc(), name, shelf) {
        let source = Source {
            name,
            bytes: &bytes,
        };
        put_source_fault(hint, source, netlist, why, shelf);
        drop(bytes);
    }
}

// Why this file is refused.
fn put_source_fault<H: Shelf>(
    hint: &mut Hint,
    source: Source<'_>,
    netlist: Option<&Netlist>,
    why: Refusal,
    shelf: &mut H,
) {
    match why {
        Refusal::TooLong => {
            source.begin(hint);
            hint.put("it has more than 4,194,304 bytes: split the drawing");
        }
        Refusal::NotJson => put_json_fault(hint, source),
        _ => {
            if let Ok(tree) = Value::from_slice(hint.alloc(), source.bytes) {
                let sheet = RefusedSheet {
                    source,
                    tree: &tree,
                    netlist,
                };
                put_tree_fault(hint, sheet, why, shelf);
                drop(tree);
            }
        }
    }
}

// Why the tree of a file is refused.
fn put_tree_fault<H: Shelf>(hint: &mut Hint, sheet: RefusedSheet<'_>, why: Refusal, shelf: &mut H) {
    match why {
        Refusal::Diagram(fault) => put_diagram_fault(hint, sheet, fault),
        Refusal::Grades(fault) => put_grades_fault(hint, sheet, fault),
        Refusal::Sheet(fault) => put_sheet_fault(hint, sheet, fault),
        Refusal::Netlist(fault) => put_netlist_fault(hint, sheet.source, sheet.tree, fault, shelf),
        _ => {}
    }
}

// What is expected of the edges of a drawing.
const EDGES: &str = "expected a list of texts, or no key at all";

// Why a tree is not a drawing.
fn put_diagram_fault(hint: &mut Hint, sheet: RefusedSheet<'_>, fault: DiagramFault) {
    let RefusedSheet { source, tree, .. } = sheet;
    match fault {
        DiagramFault::NotObject => {
            source.begin_at_value(hint, &[]);
            hint.put("a drawing is an object in { }");
        }
        DiagramFault::NoSignal => {
            source.begin_at_value(hint, &[Step::Key("signal")]);
            put_about_key(
                hint,
                "signal",
                tree.get("signal"),
                "expected a list of lanes",
            );
        }
        DiagramFault::EdgesNotList => {
            source.begin_at_value(hint, &[Step::Key("edge")]);
            put_about_key(hint, "edge", tree.get("edge"), EDGES);
        }
        DiagramFault::EdgeNotText(n) => put_no_text(hint, source, tree, "edge", n),
        DiagramFault::NoMemory => hint.cut(),
    }
}
