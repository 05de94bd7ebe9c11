//! A stack of graphs.

ghost use Rattle.std.specs.Prelude.{◌≡◌, length};

use crate::out::Out;
use crate::writing::numbers_of;
use itv_base::{EdgeName, Side};
use std::alloc::Global;
use trail::{Stamp, Trail};

/// Does steps to a stack of graphs with two slots and two levels, and writes the stack after each: `push`, `pop`, `reset`, `add 3` for an edge of
/// constraint 3, `set 0 5` for the label 5 in slot 0. A step that the stack has no room for does nothing.
pub fn trail(alloc: Global, rows: &str, out: &mut Out) {
    match Trail::new(alloc, 2, 2) {
        Ok(mut trail) => {
            step_all(alloc, &mut trail, rows, out);
            drop(trail);
        }
        Err(_) => out.refuse(),
    }
}

fn step_all(alloc: Global, trail: &mut Trail, rows: &str, out: &mut Out)
    requires levels { trail.old.levels ≡ 2 }
    requires slots { length trail.old.current.stamps ≡ 2 }
{
    for row in rows.lines() {
        step(alloc, trail, row, out);
        put_trail(trail, out);
    }
}

fn edge(constraint: u32) -> EdgeName {
    EdgeName {
        constraint,
        cause: 0,
        side: Side::Upper,
    }
}

// Does the step of a row.
fn step(alloc: Global, trail: &mut Trail, row: &str, out: &mut Out)
    requires levels { trail.old.levels ≡ 2 }
    requires slots { length trail.old.current.stamps ≡ 2 }
    ensures same_levels { trail.new.levels ≡ 2 }
    ensures same_slots { length trail.new.current.stamps ≡ 2 }
{
    let (word, rest) = row.split_once(' ').unwrap_or((row, ""));
    match numbers_of(alloc, rest) {
        Some(numbers) => {
            if do_step(trail, word, numbers.as_slice()).is_none() {
                out.refuse();
            }
            drop(numbers);
        }
        None => out.refuse(),
    }
}

// Does a step, or nothing if there is no room for it. `None` if a number is none that it takes.
fn do_step(trail: &mut Trail, word: &str, numbers: &[i64]) -> Option<()>
    requires levels { trail.old.levels ≡ 2 }
    requires slots { length trail.old.current.stamps ≡ 2 }
    ensures same_levels { trail.new.levels ≡ 2 }
    ensures same_slots { length trail.new.current.stamps ≡ 2 }
{
    match (word, numbers) {
        ("push", []) if trail.depth() < 2 => trail.push_level(),
        ("pop", []) if trail.depth() > 0 => trail.pop_level(),
        ("reset", []) => trail.reset(),
        ("add", [constraint]) if trail.edge_count() < 2 => {
            trail.add_edge(edge(u32::try_from(*constraint).ok()?))
        }
        ("set", [slot, label]) => set(trail, u32::try_from(*slot).ok()?, *label),
        _ => {}
    }
    Some(())
}

// Sets the label of a slot, which came over an edge of constraint 7.
fn set(trail: &mut Trail, slot: u32, label: i64)
    requires levels { trail.old.levels ≡ 2 }
    requires slots { length trail.old.current.stamps ≡ 2 }
    ensures same_levels { trail.new.levels ≡ 2 }
    ensures same_slots { length trail.new.current.stamps ≡ 2 }
{
    if slot < 2 {
        trail.set_label(
            slot,
            Stamp {
                label: Some(label),
                parent: Some(edge(7)),
            },
        );
    }
}

// Writes the depth of a stack, the edges of its graph, and the label of each slot with the constraint that it came over.
fn put_trail(trail: &Trail, out: &mut Out)
    requires { length trail.now.current.stamps ≡ 2 }
{
    out.put_count(u64::from(trail.depth()));
    out.put(", edges");
    for k in 0..trail.edge_count() {
        out.put(" ");
        out.put_count(u64::from(trail.edge_at(k).constraint));
    }
    for slot in 0..2 {
        out.put(", ");
        put_stamp(trail.stamp(slot), out);
    }
    out.put("\n");
}

fn put_stamp(stamp: Stamp, out: &mut Out) {
    out.put_end(stamp.label);
    if let Some(edge) = stamp.parent {
        out.put(" over ");
        out.put_count(u64::from(edge.constraint));
    }
}
