//! Which constraints the lines of a proof by clauses name. No contract says that these contradict each other.

ghost use Rattle.std.specs.Prelude.{◌≡◌, IfOk, length};

use edge_clauses::{Basis, StoredLine};
use event_graph::Network;
use itv_base::NoMemory;
use std::alloc::Global;

/// A flag for each constraint of a network: whether one of the lines names it.
pub fn named_by(alloc: Global, net: &Network, lines: &[StoredLine]) -> Result<Vec<bool>, NoMemory>
    ensures count { IfOk result (λ marks. length marks.items ≡ length net.now.constraints) }
{
    let mut marks = Vec::from_elem(alloc, false, net.len() as usize)?;
    for line in lines {
        mark_line(&mut marks, line);
    }
    Ok(marks)
}

// Marks the constraints that a line names.
fn mark_line(marks: &mut [bool], line: &StoredLine)
    ensures count { length marks.new ≡ length marks.old }
{
    match line {
        StoredLine::Fall(bound) => mark_basis(marks, bound.basis),
        StoredLine::Rise(bound) => mark_basis(marks, bound.basis),
        StoredLine::Know(_, basis) => mark_basis(marks, *basis),
        StoredLine::Loop(_, steps, _) => {
            for step in steps {
                mark_basis(marks, step.basis);
            }
        }
        StoredLine::Assume(_) | StoredLine::Close => {}
    }
}

// Marks the constraint of a basis, if it is of one.
fn mark_basis(marks: &mut [bool], basis: Basis)
    ensures count { length marks.new ≡ length marks.old }
{
    match basis {
        Basis::ByEdge(name) => mark(marks, name.constraint),
        Basis::ByChoice(constraint) => mark(marks, constraint),
        Basis::Either(_) | Basis::ByKept(_) => {}
    }
}

// Marks a constraint. A constraint without a flag is ignored.
fn mark(marks: &mut [bool], number: u32)
    ensures count { length marks.new ≡ length marks.old }
{
    let place = number as usize;
    if place < marks.len() {
        marks[place] = true;
    }
}
