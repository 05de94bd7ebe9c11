//! Frames: the frame that lines change, and the frame outside of the block.

ghost use Rattle.std.specs.Prelude.{◌≡◌, ◌<◌, ◌<ℤ◌, ◌++◌, ◌∷◌, [], Some, None, IsSome, IfOk, OnOk, OnErr};
ghost use Rattle.event_graph.specs.Times.{time_of};
ghost use Rattle.falling.specs.Derivation.{starting_values};
ghost use Rattle.falling.specs.DerivationEnds.{AreLimits};
ghost use Rattle.edge_clauses.specs.Lines.{starting_lows, with_known, with_low, with_up};
ghost use Rattle.edge_clauses.specs.Step.Standing.{base_of, frame_now, frame_outside};

use crate::bounds::EventBounds;
use crate::edge_list::EdgeList;
use crate::known::KnownEdges;
use crate::line::EventBound;
use crate::terms::Terms;
use crate::weights::list_of;
use event_graph::{Edge, Network};
use itv_base::NoMemory;
use std::alloc::Global;

/// Bounds and known edges, those outside of the block, and the edges that the open block assumes, if there is one.
#[derive(Drop)]
pub struct Frames {
    pub bounds: EventBounds,
    pub known: KnownEdges,
    pub assumed: Option<EdgeList>,
}

impl Frames {
    /// The frame before the first line.
    pub fn new(alloc: Global, net: &Network, terms: Terms) -> Result<Frames, NoMemory>
        requires limits { AreLimits net.now terms.limits }
        requires from { terms.from.0 < net.now.events }
        ensures now { IfOk result (λ f. frame_now f ≡ record { up = starting_values net.now terms.from; low = starting_lows net.now terms.from; known = [] }) }
        ensures assumed { IfOk result (λ f. f.assumed ≡ None) }
    {
        Ok(Frames {
            bounds: EventBounds::new(alloc, net.events(), terms.from, terms.limits.cap)?,
            known: KnownEdges::new(alloc, net.events() as usize)?,
            assumed: None,
        })
    }

    /// Sets a lower upper bound of an event.
    pub fn fall(&mut self, bound: EventBound) -> Result<(), NoMemory>
        requires lower { bound.value <ℤ time_of (frame_now self.old).up bound.event }
        ensures now { OnOk result (frame_now self.new ≡ with_up (frame_now self.old) bound.event bound.value) }
        ensures outside { OnOk result (IsSome self.old.assumed → frame_outside self.new ≡ frame_outside self.old) }
        ensures assumed { OnOk result (self.new.assumed ≡ self.old.assumed) }
        ensures kept { OnErr result (self.new ≡ self.old) }
    {
        self.bounds.lower(bound)?;
        if self.assumed.is_none() {
            self.bounds.keep();
        }
        Ok(())
    }

    /// Sets a higher lower bound of an event.
    pub fn rise(&mut self, bound: EventBound) -> Result<(), NoMemory>
        requires higher { time_of (frame_now self.old).low bound.event <ℤ bound.value }
        ensures now { OnOk result (frame_now self.new ≡ with_low (frame_now self.old) bound.event bound.value) }
        ensures outside { OnOk result (IsSome self.old.assumed → frame_outside self.new ≡ frame_outside self.old) }
        ensures assumed { OnOk result (self.new.assumed ≡ self.old.assumed) }
        ensures kept { OnErr result (self.new ≡ self.old) }
    {
        self.bounds.raise(bound)?;
        if self.assumed.is_none() {
            self.bounds.keep();
        }
        Ok(())
    }

    /// Adds an edge to those that are known.
    pub fn know(&mut self, edge: Edge) -> Result<(), NoMemory>
        ensures now { OnOk result (frame_now self.new ≡ with_known (frame_now self.old) (edge ∷ [])) }
        ensures outside { OnOk result (IsSome self.old.assumed → frame_outside self.new ≡ frame_outside self.old) }
        ensures assumed { OnOk result (self.new.assumed ≡ self.old.assumed) }
        ensures kept { OnErr result (self.new ≡ self.old) }
    {
        self.known.push(edge)?;
        if self.assumed.is_none() {
            self.known.keep();
        }
        Ok(())
    }

    /// Opens a block that assumes edges, in place of an open block.
    pub fn open(&mut self, alloc: Global, edges: &[Edge]) -> Result<(), NoMemory>
        ensures outside { OnOk result (frame_outside self.new ≡ base_of self.old.assumed (frame_outside self.old) (frame_now self.old)) }
        ensures now { OnOk result (frame_now self.new ≡ with_known (base_of self.old.assumed (frame_outside self.old) (frame_now self.old)) edges.now) }
        ensures assumed { OnOk result (self.new.assumed ≡ Some edges.now) }
        ensures kept { OnErr result (self.new ≡ self.old) }
    {
        let assumed = list_of(alloc, edges)?;
        let is_open = self.assumed.is_some();
        self.known.open(is_open, edges)?;
        if is_open {
            self.bounds.undo();
        }
        self.bounds.keep();
        self.assumed = Some(assumed);
        Ok(())
    }

    /// Closes the open block.
    pub fn close(&mut self)
        requires open { IsSome self.old.assumed }
        ensures now { frame_now self.new ≡ frame_outside self.old }
        ensures assumed { self.new.assumed ≡ None }
    {
        self.bounds.undo();
        self.known.undo();
        self.assumed = None;
    }
}
