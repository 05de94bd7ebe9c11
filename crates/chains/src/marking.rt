//! Which constraints a proof names.

ghost use Rattle.std.specs.Prelude.{◌≡◌, ◌∷◌, [], false, IfOk, length, replicate};
ghost use Rattle.event_graph.specs.Proof.{Path, Split};
ghost use Rattle.chains.specs.MarkingLaws.{marked_more, marked_none};
ghost use Rattle.chains.specs.Named.{HasMarked};

use event_graph::{Network, Scribe, ScribeFailed};
use itv_base::{EdgeName, NoMemory};
use std::alloc::Global;
use std::marker::Model;

/// Marks the constraints that the lines of a proof name: the constraints that a line splits by, and the constraints of the edges of a path or
/// a loop. It takes every line, so it never fails. Contracts see a flag for each constraint.
#[derive(Drop)]
pub struct Marking {
    marks: Vec<bool>,
}

impl Model for Marking {
    ghost use Rattle.std.specs.Prelude.{Bool, List};

    ghost Value = { List Bool };

    ghost view = { λ m. m.marks.items };
}

impl Marking {
    /// A flag for each constraint of a network; none is set. Takes all the memory that it ever needs, or answers `NoMemory`.
    pub fn new(alloc: Global, net: &Network) -> Result<Marking, NoMemory>
        ensures made { IfOk result (λ marking. marking ≡ replicate (length net.now.constraints) false) }
    {
        Ok(Marking {
            marks: Vec::from_elem(alloc, false, net.len() as usize)?,
        })
    }

    /// Begins a new proof: no flag is set.
    pub fn begin(&mut self)
        ensures none { self.new ≡ replicate (length self.old) false }
    {
        self.marks.fill(false);
    }

    /// A flag for each constraint: whether the proof names it.
    pub fn marks(&self) -> &[bool]
        ensures { result.now ≡ self.now }
    {
        &self.marks
    }
}

// Marks a constraint. A constraint without a flag is ignored.
fn mark(marks: &mut [bool], number: u32)
    ensures { HasMarked marks.old (Split number ∷ []) marks.new }
{
    let place = number as usize;
    if place < marks.len() {
        marks[place] = true;
    }
}

// Marks the constraints of edges.
fn mark_edges(marks: &mut [bool], edges: &[EdgeName])
    ensures { HasMarked marks.old (Path edges.now ∷ []) marks.new }
{
    for name in edges {
        mark(marks, name.constraint);
    }
}

impl Scribe for Marking {
    ghost use Rattle.std.proofs.Common.{refl};

    ghost faults = { λ _. 0 };

    ghost Grew = { HasMarked };

    ghost WasCut = { λ _ _ _. ⊥ };

    fn split(&mut self, constraint: u32) -> Result<(), ScribeFailed> {
        mark(&mut self.marks, constraint);
        Ok(())
    }

    fn cut_path(&mut self, edges: &[EdgeName]) -> Result<(), ScribeFailed> {
        mark_edges(&mut self.marks, edges);
        Ok(())
    }

    fn cut_loop(&mut self, edges: &[EdgeName]) -> Result<(), ScribeFailed> {
        mark_edges(&mut self.marks, edges);
        Ok(())
    }

    ghost grew_none = { marked_none };

    ghost grew_more = { marked_more };

    ghost cut_after = { λ s t u xs ys p q. q };

    ghost grew_faults = { λ s t xs p. refl };
}
