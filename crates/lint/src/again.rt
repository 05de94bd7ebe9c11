//! Edges that occur twice to the letter.

use crate::asked::part_count;
use crate::comments::{is_edge_comment, is_wire_comment};
use crate::warning::{DrawnPlace, Warning};
use crate::warning_word::WarningWord;
use compose::Design;
use design_plan::Plan;
use itv_base::{NoMemory, Texts};
use origin::Origin;
use std::alloc::Global;
use std::collections::HashMap;

// For each text of an edge, the number of the first edge that has it.
type FirstTexts<'a> = HashMap<&'a str, u64>;

/// Puts a warning at the end for each edge that has the text of an earlier edge of its sheet, and for each edge of the netlist that has the text of an
/// earlier one. Comments may occur twice. The answer is `NoMemory` if memory runs out.
pub fn push_again(
    alloc: Global,
    warnings: &mut Vec<Warning>,
    plan: &Plan,
    design: &Design<'_>,
) -> Result<(), NoMemory> {
    for part in 0..part_count(design) {
        push_edges(alloc, warnings, part, design.sheet_of(part).edges())?;
    }
    push_wires(alloc, warnings, plan.netlist().edges())
}

// Puts the warnings of the edges of the sheet of a part at the end.
fn push_edges(
    alloc: Global,
    warnings: &mut Vec<Warning>,
    part: u32,
    edges: &Texts,
) -> Result<(), NoMemory> {
    let mut firsts = FirstTexts::new(alloc);
    for n in 0..edges.len() {
        let text = edges.get(n).as_text();
        if is_edge_comment(text) {
            continue;
        }
        if let Some(first) = first_of(&mut firsts, text, n)? {
            let first = DrawnPlace {
                part,
                origin: Origin::Edge(first),
            };
            let other = DrawnPlace {
                part,
                origin: Origin::Edge(n),
            };
            warnings.push(Warning::of_two(WarningWord::Again, first, other))?;
        }
    }
    Ok(())
}

// Puts the warnings of the edges of the netlist at the end.
fn push_wires(alloc: Global, warnings: &mut Vec<Warning>, edges: &Texts) -> Result<(), NoMemory> {
    let mut firsts = FirstTexts::new(alloc);
    for n in 0..edges.len() {
        let text = edges.get(n).as_text();
        if is_wire_comment(text) {
            continue;
        }
        if let Some(first) = first_of(&mut firsts, text, n)? {
            let word = WarningWord::Again;
            warnings.push(Warning::of_two(word, DrawnPlace::wire(first), DrawnPlace::wire(n)))?;
        }
    }
    Ok(())
}

// The number of the first edge that has a text, if an earlier one has it; and otherwise notes that this edge is the first.
fn first_of<'a>(
    firsts: &mut FirstTexts<'a>,
    text: &'a str,
    n: u64,
) -> Result<Option<u64>, NoMemory> {
    if let Some(first) = firsts.get(&text) {
        return Ok(Some(*first));
    }
    firsts.insert(text, n)?;
    Ok(None)
}
