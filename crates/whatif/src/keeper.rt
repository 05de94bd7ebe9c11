//! A scribe that keeps the lines of a proof for as long as they fit.

ghost use Rattle.std.specs.Prelude.{◌≡◌, [], IfOk, None, Some, option_map};
ghost use Rattle.std.specs.Option.{option_copied};
ghost use Rattle.certificate.specs.Scribing.{TreeView};
ghost use Rattle.whatif.specs.KeeperLaws.{keeper_cut, keeper_more, keeper_none};
ghost use Rattle.whatif.specs.Step.Keeping.{KeeperGrew, KeeperWasCut};

use certificate::TreeScribe;
use event_graph::{Scribe, ScribeFailed};
use itv_base::{EdgeName, NoMemory};
use std::alloc::Global;
use std::marker::Model;

/// Keeps the lines of a proof, or lets all of them go if they do not fit. It takes every line, so it never fails.
#[derive(Drop)]
pub struct Keeper {
    tree: TreeScribe,
    is_full: bool,
}

impl Model for Keeper {
    ghost use Rattle.whatif.specs.Step.Keeping.{KeeperView, unless_full};

    ghost Value = { KeeperView };

    ghost view = { λ k. record { lines = unless_full k.is_full k.tree.lines; line_room = k.tree.line_room; edge_room = k.tree.edge_room } };
}

impl Keeper {
    /// Room for this number of lines, with this number of edges in all of them. There is no line yet.
    pub fn new(alloc: Global, lines: u32, edges: u32) -> Result<Keeper, NoMemory>
        ensures empty { IfOk result (λ k. k ≡ record { lines = Some []; line_room = lines; edge_room = edges }) }
    {
        Ok(Keeper {
            tree: TreeScribe::new(alloc, lines, edges)?,
            is_full: false,
        })
    }

    /// Begins a new proof: no line is kept, and all the room is free.
    pub fn begin(&mut self)
        ensures empty { self.new ≡ record self.old { lines = Some [] } }
    {
        self.tree.clear();
        self.is_full = false;
    }

    /// Lets all lines go.
    pub fn forget(&mut self)
        ensures empty { self.new ≡ record self.old { lines = None } }
    {
        self.is_full = true;
    }

    /// The lines, unless they were let go.
    pub fn proof(&self) -> Option<&TreeScribe>
        ensures lines { option_map (λ (tree : TreeView). tree.lines) (option_copied result) ≡ self.now.lines }
    {
        if self.is_full {
            return None;
        }
        Some(&self.tree)
    }
}

impl Scribe for Keeper {
    ghost use Rattle.std.proofs.Common.{refl};

    ghost faults = { λ _. 0 };

    ghost Grew = { KeeperGrew };

    ghost WasCut = { KeeperWasCut };

    fn split(&mut self, constraint: u32) -> Result<(), ScribeFailed> {
        if self.is_full {
            return Ok(());
        }
        if self.tree.split(constraint).is_err() {
            self.is_full = true;
        }
        Ok(())
    }

    fn cut_path(&mut self, edges: &[EdgeName]) -> Result<(), ScribeFailed> {
        if self.is_full {
            return Ok(());
        }
        if self.tree.cut_path(edges).is_err() {
            self.is_full = true;
        }
        Ok(())
    }

    fn cut_loop(&mut self, edges: &[EdgeName]) -> Result<(), ScribeFailed> {
        if self.is_full {
            return Ok(());
        }
        if self.tree.cut_loop(edges).is_err() {
            self.is_full = true;
        }
        Ok(())
    }

    ghost grew_none = { keeper_none };

    ghost grew_more = { keeper_more };

    ghost cut_after = { keeper_cut };

    ghost grew_faults = { λ s t xs p. refl };
}
