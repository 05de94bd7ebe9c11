//! The stack of graphs.

ghost use Rattle.std.specs.Prelude.{◌≡◌, ℕ, ◌<◌, ◌≤◌, [], ◌∷◌, ◌++◌, Some, length, slice_get, IfOk};
ghost use Rattle.trail.specs.Stack.{new_stack, after_pop, after_push, with_edge, with_stamp};

use crate::stamp::Stamp;
use crate::undo::{LevelStart, Saved, Slot, put_back};
use itv_base::{EdgeName, NoMemory};
use std::alloc::Global;
use std::marker::Model;

/// A stack of graphs, which is never empty. A graph is a list of edges and a stamp for each slot. Contracts see how many graphs may be pushed,
/// the current graph, and the graphs below it, the nearest first.
///
/// There is one graph in memory, and an undo log as constraint solvers keep it. A level saves a slot before it first sets the slot, and never
/// again. So a push takes the same time whatever the graph is, and a pop takes time for each slot that its level set.
#[derive(Drop)]
pub struct Trail {
    levels: u32,
    edges: Vec<EdgeName>,
    slots: Vec<Slot>,
    // The undo log of all levels, the oldest entry first.
    saved: Vec<Saved>,
    // Where each level began, the oldest level first.
    starts: Vec<LevelStart>,
}

impl Model for Trail {
    ghost use Rattle.trail.specs.Stack.{TrailView};

    ghost Value = { TrailView };

    ghost use Rattle.trail.specs.Step.Inside.{stack_in, IsSoundTrail};

    ghost view = { stack_in };

    ghost invariant = { IsSoundTrail };
}

impl Trail {
    /// One graph, without edges and with empty stamps. Each graph has `slots` stamps; at most `levels` graphs may be pushed, and a graph may
    /// have at most `levels` edges. Takes all the memory that the trail ever needs, or gives `NoMemory`.
    pub fn new(alloc: Global, slots: u32, levels: u32) -> Result<Trail, NoMemory>
        ensures { IfOk result (λ t. t ≡ new_stack slots levels) }
    {
        let slot_count = slots as usize;
        let level_count = levels as usize;
        Ok(Trail {
            levels,
            edges: Vec::with_capacity(alloc, level_count)?,
            slots: vec![in alloc; Slot::UNSET; slot_count]?,
            saved: Vec::with_capacity(alloc, slot_count * level_count)?,
            starts: Vec::with_capacity(alloc, level_count)?,
        })
    }

    /// Makes the trail as it was when it was new, with as many slots and levels.
    pub fn reset(&mut self)
        ensures { self.new ≡ new_stack (length self.old.current.stamps) self.old.levels }
    {
        self.edges.clear();
        self.saved.clear();
        self.starts.clear();
        self.slots.fill(Slot::UNSET);
    }

    /// Puts a copy of the current graph on top of it. The copy is then the current graph.
    pub fn push_level(&mut self)
        requires { length self.old.below < self.old.levels }
        ensures { self.new ≡ after_push self.old }
    {
        let start = LevelStart {
            edges: self.edges.len(),
            saved: self.saved.len(),
        };
        self.starts.push_reserved(start);
    }

    /// Takes the current graph away. The graph below is current again, as it was when the other was pushed.
    pub fn pop_level(&mut self)
        requires { 0 < length self.old.below }
        ensures below { self.new ≡ after_pop self.old }
        ensures slots { length self.new.current.stamps ≡ length self.old.current.stamps }
    {
        let start = self.starts.pop().unwrap();
        put_back(&mut self.slots, &self.saved[start.saved..]);
        self.saved.truncate(start.saved);
        self.edges.truncate(start.edges);
    }

    /// Puts an edge at the end of the current graph's edges.
    pub fn add_edge(&mut self, edge: EdgeName)
        requires { length self.old.current.edges < self.old.levels }
        ensures { self.new ≡ record self.old { current = with_edge self.old.current edge } }
    {
        self.edges.push_reserved(edge);
    }

    /// Sets the stamp of a slot, counted from 0, in the current graph.
    pub fn set_label(&mut self, slot: u32, stamp: Stamp)
        requires { slot < length self.old.current.stamps }
        ensures { self.new ≡ record self.old { current = with_stamp self.old.current slot stamp } }
    {
        let level = self.depth();
        let was = self.slots[slot as usize];
        // A slot that this level set is saved already. Below the first graph there is no graph to go back to.
        if was.level < level {
            self.saved.push_reserved(Saved { slot, was });
        }
        self.slots[slot as usize] = Slot { stamp, level };
    }

    /// How many graphs lie below the current graph.
    pub fn depth(&self) -> u32
        ensures count { result ≡ length self.now.below }
        ensures within { result ≤ self.now.levels }
    {
        self.starts.len() as u32
    }

    /// How many edges the current graph has.
    pub fn edge_count(&self) -> u32
        ensures count { result ≡ length self.now.current.edges }
        ensures within { result ≤ self.now.levels }
    {
        self.edges.len() as u32
    }

    /// The edge at a place, counted from 0, of the current graph.
    pub fn edge_at(&self, k: u32) -> EdgeName
        requires { k < length self.now.current.edges }
        ensures { slice_get self.now.current.edges k ≡ Some result }
    {
        self.edges[k as usize]
    }

    /// The stamp of a slot, counted from 0, in the current graph.
    pub fn stamp(&self, slot: u32) -> Stamp
        requires { slot < length self.now.current.stamps }
        ensures { slice_get self.now.current.stamps slot ≡ Some result }
    {
        self.slots[slot as usize].stamp
    }
}
