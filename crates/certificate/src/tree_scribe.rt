//! A scribe that keeps the lines of a proof.

ghost use Rattle.std.specs.Prelude.{◌≡◌, ◌==◌, ◌<◌, ◌≤◌, ◌+◌, ◌-◌, ◌↔◌, ◌∷◌, [], IfOk, IsTrue, OnErr, OnOk, Some, drop, length, slice_get, take};
ghost use Rattle.itv_base.specs.Outside.{FaultCounted};
ghost use Rattle.event_graph.specs.Lines.{lent_line};
ghost use Rattle.certificate.specs.Scribing.{TreeGrew, TreeWasCut};
ghost use Rattle.certificate.specs.ScribeLaws.{tree_cut, tree_faults, tree_more, tree_none};
ghost use Rattle.certificate.specs.Step.Stored.{EndsRise, IsSplitEnd, start_of, stored_line, stored_lines};

use crate::stored::{Stored, StoredKind};
use event_graph::{Line, Scribe, ScribeFailed};
use itv_base::{EdgeName, NoMemory};
use std::alloc::Global;
use std::marker::Model;

/// Keeps lines of a proof, as many as it has room for. A line that doesn't fit counts as a fault and changes nothing else.
#[derive(Drop)]
pub struct TreeScribe {
    stored: Vec<Stored>,
    edges: Vec<EdgeName>,
    line_room: usize,
    edge_room: usize,
    count: u64,
}

impl Model for TreeScribe {
    ghost use Rattle.std.specs.Prelude.{◌≤◌, length, vec_capacity};
    ghost use Rattle.certificate.specs.Scribing.{TreeView};
    ghost use Rattle.certificate.specs.Step.Stored.{EndsRise, stored_lines};

    ghost Value = { TreeView };

    ghost view = { λ s. record { lines = stored_lines 0 s.stored.items s.edges.items; line_room = s.line_room; edge_room = s.edge_room; faults = s.count } };

    ghost invariant = { λ s. EndsRise 0 s.stored.items (length s.edges.items) × (length s.stored.items ≤ s.line_room) × (s.line_room ≤ vec_capacity s.stored)
        × (length s.edges.items ≤ s.edge_room) × (s.edge_room ≤ vec_capacity s.edges) };
}

impl TreeScribe {
    /// Room for a number of lines and for a number of edges of all lines; no line is kept yet. Takes all the memory that it ever needs.
    pub fn new(alloc: Global, lines: u32, edges: u32) -> Result<TreeScribe, NoMemory>
        ensures empty { IfOk result (λ s. s ≡ record { lines = []; line_room = lines; edge_room = edges; faults = 0 }) }
    {
        let line_room = lines as usize;
        let edge_room = edges as usize;
        Ok(TreeScribe {
            stored: Vec::with_capacity(alloc, line_room)?,
            edges: Vec::with_capacity(alloc, edge_room)?,
            line_room,
            edge_room,
            count: 0,
        })
    }

    /// How many lines are kept.
    pub fn len(&self) -> u64
        ensures count { result ≡ length self.now.lines }
    {
        self.stored.len() as u64
    }

    /// Whether no line is kept.
    pub fn is_empty(&self) -> bool
        ensures test { result ≡ (length self.now.lines == 0) }
    {
        self.stored.is_empty()
    }

    /// A line that is kept, given by its number from 0.
    pub fn line(&self, k: u64) -> Line<'_>
        requires { k < length self.now.lines }
        ensures line { slice_get self.now.lines k ≡ Some (lent_line result) }
    {
        line_at(&self.stored, &self.edges, k as usize)
    }

    /// Forgets all lines. The room and the count of faults stay.
    pub fn clear(&mut self)
        ensures empty { self.new ≡ record self.old { lines = [] } }
    {
        self.stored.clear();
        self.edges.clear();
    }

    // Keeps a line, or counts a fault.
    fn keep(&mut self, kind: StoredKind, edges: &[EdgeName]) -> Result<(), ScribeFailed>
        requires { IsSplitEnd 0 kind (length edges.now) }
        ensures ok { OnOk result (TreeGrew self.old (stored_line kind edges.now ∷ []) self.new) }
        ensures failed { OnErr result (TreeWasCut self.old (stored_line kind edges.now ∷ []) self.new) }
        ensures rose { OnErr result (FaultCounted self.old.faults self.new.faults) }
    {
        if !has_room(
            self.stored.len(),
            self.line_room,
            self.edges.len(),
            edges.len(),
            self.edge_room,
        ) {
            self.count = self.count.saturating_add(1);
            return Err(ScribeFailed);
        }
        self.edges.extend_from_slice(edges).unwrap();
        let end = self.edges.len();
        self.stored.push(Stored { kind, end }).unwrap();
        Ok(())
    }
}

// The place of the first edge of a stored line.
fn start_of(stored: &[Stored], k: usize) -> usize
    requires { k < length stored.now }
    ensures { result ≡ start_of stored.now k }
{
    if k == 0 { 0 } else { stored[k - 1].end }
}

// The edges from a place up to another, which is not among them.
fn part(edges: &[EdgeName], start: usize, end: usize) -> &[EdgeName]
    requires low { start ≤ end }
    requires high { end ≤ length edges.now }
    ensures { result.now ≡ take (end - start) (drop start edges.now) }
{
    &edges[start..end]
}

// Whether there is room for a line with `more` edges beside `lines` lines with `edges` edges.
fn has_room(lines: usize, line_room: usize, edges: usize, more: usize, edge_room: usize) -> bool
    requires { edges ≤ edge_room }
    ensures { IsTrue result ↔ ((lines < line_room) × (edges + more ≤ edge_room)) }
{
    lines < line_room && more <= edge_room - edges
}

// A stored line, lent.
fn line_at<'a>(stored: &[Stored], edges: &'a [EdgeName], k: usize) -> Line<'a>
    requires ends { EndsRise 0 stored.now (length edges.now) }
    requires line { k < length stored.now }
    ensures { slice_get (stored_lines 0 stored.now edges.now) k ≡ Some (lent_line result) }
{
    let line = stored[k];
    let edges = part(edges, start_of(stored, k), line.end);
    match line.kind {
        StoredKind::Split(constraint) => Line::Split(constraint),
        StoredKind::Path => Line::Path(edges),
        StoredKind::Loop => Line::Loop(edges),
    }
}

impl Scribe for TreeScribe {
    ghost faults = { λ s. s.faults };

    ghost Grew = { TreeGrew };

    ghost WasCut = { TreeWasCut };

    fn split(&mut self, constraint: u32) -> Result<(), ScribeFailed> {
        self.keep(StoredKind::Split(constraint), &[])
    }

    fn cut_path(&mut self, edges: &[EdgeName]) -> Result<(), ScribeFailed> {
        self.keep(StoredKind::Path, edges)
    }

    fn cut_loop(&mut self, edges: &[EdgeName]) -> Result<(), ScribeFailed> {
        self.keep(StoredKind::Loop, edges)
    }

    ghost grew_none = { tree_none };

    ghost grew_more = { tree_more };

    ghost cut_after = { tree_cut };

    ghost grew_faults = { tree_faults };
}
