//! Sheets whose arrows are all comments.

use compose::SheetKey;
use design_plan::Plan;
use itv_base::{NoMemory, Shelf, Text, Texts};
use json_places::Step;
use netlist::Part;
use refusal_hints::{Hint, Source, bytes_of};

/// Puts for each sheet with labels none of which is a rule, a question or a requirement how many arrows have labels.
pub fn put_unruled<H: Shelf>(hint: &mut Hint, plan: &Plan, shelf: &mut H) {
    for name in plan.netlist().sheet_names().as_slice() {
        let parts = plan.netlist().parts().as_slice();
        if let Some(part) = parts
            .iter()
            .find(|part| part.sheet.as_text() == name.as_text())
        {
            put_of_part(hint, plan, part, shelf);
        }
    }
}

// The same for the sheet of a part.
fn put_of_part<H: Shelf>(hint: &mut Hint, plan: &Plan, part: &Part, shelf: &mut H) {
    match SheetKey::of(hint.alloc(), part) {
        Ok(key) => {
            if let Some(sheet) = plan.sheets().get(&key) {
                put_of_edges(hint, part.sheet.as_text(), sheet.edges(), shelf);
            }
            drop(key);
        }
        Err(NoMemory) => hint.cut(),
    }
}

// The same for the edges of a sheet.
fn put_of_edges<H: Shelf>(hint: &mut Hint, name: &str, edges: &Texts, shelf: &mut H) {
    let edges = edges.as_slice();
    if edges.iter().any(|edge| label_of(edge).starts_with('@')) {
        return;
    }
    if let Some(first) = edges.iter().position(|edge| !label_of(edge).is_empty()) {
        begin_at_edge(hint, name, first as u64, shelf);
        put_count(
            hint,
            edges
                .iter()
                .filter(|edge| !label_of(edge).is_empty())
                .count(),
        );
    }
}

// The label of an edge, after its arrow and a space.
fn label_of(edge: &Text) -> &str {
    match edge.as_text().split_once(' ') {
        Some((_, label)) => label,
        None => "",
    }
}

fn put_count(hint: &mut Hint, count: usize) {
    if count == 1 {
        hint.put("an arrow has a label, and it is not a rule or a question");
    } else {
        hint.put_number(count as u64);
        hint.put(" arrows have labels, and none is a rule or a question");
    }
    hint.put(": a label begins with @");
}

// Begins a line about an edge of a sheet.
fn begin_at_edge<H: Shelf>(hint: &mut Hint, name: &str, number: u64, shelf: &mut H) {
    match bytes_of(hint.alloc(), name, shelf) {
        Some(bytes) => {
            let source = Source {
                name,
                bytes: &bytes,
            };
            source.begin_at_value(hint, &[Step::Key("edge"), Step::Item(number)]);
            drop(bytes);
        }
        None => hint.begin(),
    }
}
