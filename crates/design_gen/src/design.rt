//! The files of the generated design.

ghost use Rattle.std.specs.Prelude.{◌≡◌, ◌≤◌, [], false, IfErr, IfOk, OnOk};
ghost use Rattle.std.specs.FinMap as map;
ghost use Rattle.serde_json.specs.Data.{depth};
ghost use Rattle.serde_json.specs.View.{view};
ghost use Rattle.serde_json.specs.Read.{max_depth};
ghost use Rattle.serde_json.specs.Written.{has_float};
ghost use Rattle.design_gen.specs.Files.{IsDesignShelf, IsGenFault, IsSize, ReadBack, ReadsBack, with_tree};

use crate::fault::GenFault;
use crate::netlist::bus;
use crate::sheets::{master, merge, slave};
use itv_base::{MAX_SELF_SIZE, NoMemory, ShelfMem};
use serde_json::Value;
use std::alloc::Global;

/// The files of the generated design of a size from 1 to [`MAX_SELF_SIZE`], on a new shelf: the netlist `bus.json` with as many slaves, and the
/// sheets `master.json`, `slave.json` and `merge.json`. Each file is the text of its tree without spaces, which reads back as the tree. Any
/// other size gives `OutOfRange`, and takes no memory.
pub fn make(alloc: Global, n: u32) -> Result<ShelfMem, GenFault>
    ensures design { IfOk result (IsDesignShelf n) }
    ensures reads_back { OnOk result (ReadBack n) }
    ensures size { OnOk result (IsSize n) }
    ensures fault { IfErr result (IsGenFault n) }
{
    if n < 1 || MAX_SELF_SIZE < n {
        return Err(GenFault::OutOfRange(n));
    }
    Ok(files(alloc, n)?)
}

// The files of a size.
fn files(alloc: Global, n: u32) -> Result<ShelfMem, NoMemory>
    ensures design { IfOk result (IsDesignShelf n) }
    ensures reads_back { OnOk result (ReadBack n) }
{
    let mut shelf = ShelfMem::new(alloc)?;
    add_files(alloc, n, &mut shelf)?;
    Ok(shelf)
}

// Adds the files of a size to a new shelf.
fn add_files(alloc: Global, n: u32, shelf: &mut ShelfMem) -> Result<(), NoMemory>
    requires new { shelf.old ≡ record { files = map.empty; failing = []; calls = 0; faults = 0; last = [] } }
    ensures design { OnOk result (IsDesignShelf n shelf.new) }
    ensures reads_back { OnOk result (ReadBack n) }
{
    add_tree(alloc, shelf, "bus.json", &bus(alloc, n)?)?;
    add_tree(alloc, shelf, "master.json", &master(alloc)?)?;
    add_tree(alloc, shelf, "slave.json", &slave(alloc)?)?;
    add_tree(alloc, shelf, "merge.json", &merge(alloc)?)?;
    Ok(())
}

// Adds a file with the text of a tree.
fn add_tree(alloc: Global, shelf: &mut ShelfMem, name: &str, tree: &Value) -> Result<(), NoMemory>
    requires depth { depth (view tree.now) ≤ max_depth }
    requires no_float { has_float (view tree.now) ≡ false }
    ensures adds { OnOk result (shelf.new ≡ record shelf.old {
      files = with_tree shelf.old.files name.now (view tree.now);
    }) }
    ensures reads_back { OnOk result (ReadsBack (view tree.now)) }
{
    let bytes = tree.to_vec(alloc)?;
    shelf.add(alloc, name, &bytes)
}
