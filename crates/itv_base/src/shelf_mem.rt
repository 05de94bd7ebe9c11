//! A shelf in memory, for tests and for generated designs.

ghost use Rattle.std.specs.Prelude.{◌≡◌, ◌≤◌, ◌∷◌, ◌++◌, [], IfOk, OnOk, OnErr, length, take, option_map};
ghost use Rattle.std.specs.FinMap as map;
ghost use Rattle.itv_base.specs.Outside.{Fetches, file_of};
ghost use Rattle.itv_base.specs.Memory.{MemFetches, shelf_state};

use crate::shelf::{FetchFault, Shelf};
use crate::text::{NoMemory, Text};
use std::alloc::Global;
use std::marker::Model;

// A file: its name and its bytes.
#[derive(Drop)]
struct Entry {
    name: Text,
    bytes: Vec<u8>,
}

impl Model for Entry {
    ghost use Rattle.std.specs.Prelude.{List, ℕ};

    ghost Value = { List ℕ × List ℕ };

    ghost view = { λ e. (e.name, e.bytes.items) };
}

/// Files in memory by name. A fetch fails if and only if there is no file of the name, or the number of the call, from
/// 0, is listed.
#[derive(Drop)]
pub struct ShelfMem {
    // The newest file first, so that it is the first with its name.
    files: Vec<Entry>,
    failing: Vec<u32>,
    calls: u32,
    faults: u64,
    last: Text,
}

impl Model for ShelfMem {
    ghost use Rattle.std.specs.FinMap as map;
    ghost use Rattle.itv_base.specs.Memory.{ShelfMemView, mem_shelf_code};

    ghost Value = { ShelfMemView };

    ghost coded = { mem_shelf_code };

    ghost view = { λ s. record { files = map.from_entries s.files.items; failing = s.failing.items; calls = s.calls; faults = s.faults; last = s.last } };
}

impl ShelfMem {
    /// No file, and no call that is to fail.
    pub fn new(alloc: Global) -> Result<ShelfMem, NoMemory>
        ensures fresh { IfOk result (λ s. s ≡ record { files = map.empty; failing = []; calls = 0; faults = 0; last = [] }) }
    {
        Ok(ShelfMem {
            files: Vec::new(alloc),
            failing: Vec::new(alloc),
            calls: 0,
            faults: 0,
            last: Text::from_text(alloc, "")?,
        })
    }

    /// Sets the file of a name. If memory is not found, the shelf is unchanged.
    pub fn add(&mut self, alloc: Global, name: &str, bytes: &[u8]) -> Result<(), NoMemory>
        ensures ok { OnOk result (self.new
            ≡ record self.old { files = map.insert self.old.files name.now bytes.now }) }
        ensures err { OnErr result (self.new ≡ self.old) }
    {
        let entry = Entry {
            name: Text::from_text(alloc, name)?,
            bytes: Vec::from_slice(alloc, bytes)?,
        };
        self.files.insert(0, entry)?;
        Ok(())
    }

    /// Lists a call that is to fail, given by its number from 0. If memory is not found, the shelf is unchanged.
    pub fn fail_call(&mut self, call: u32) -> Result<(), NoMemory>
        ensures ok { OnOk result (self.new ≡ record self.old { failing = self.old.failing ++ call ∷ [] }) }
        ensures err { OnErr result (self.new ≡ self.old) }
    {
        self.failing.push(call)?;
        Ok(())
    }
}

// The newest content under a name.
fn newest<'f>(files: &'f [Entry], name: &str) -> Option<&'f [u8]>
    ensures { option_map (λ f. f.now) result ≡ file_of (map.from_entries files.now) name.now }
{
    for entry in files {
        if entry.name.as_text() == name {
            return Some(entry.bytes.as_slice());
        }
    }
    None
}

// The first `cap` bytes, or all of them if there are fewer.
fn front_of(alloc: Global, bytes: &[u8], cap: usize) -> Result<Vec<u8>, NoMemory>
    ensures few { IfOk result (λ front. length front.items ≤ cap) }
    ensures front { IfOk result (λ front. front.items ≡ take cap bytes.now) }
{
    let len = bytes.len().min(cap);
    let front = Vec::from_slice(alloc, &bytes[..len])?;
    Ok(front)
}

impl Shelf for ShelfMem {
    ghost state = { shelf_state };

    fn fetch(&mut self, alloc: Global, name: &str, cap: u32) -> Result<Vec<u8>, FetchFault>
        ensures fetches { Fetches (shelf_state self.old) (shelf_state self.new) name.now cap result }
        ensures exact { MemFetches self.old self.new name.now cap result }
    {
        let is_listed = self.failing.contains(&self.calls);
        match newest(&self.files, name) {
            Some(bytes) if !is_listed => {
                let front = front_of(alloc, bytes, cap as usize)?;
                self.calls = self.calls.saturating_add(1);
                Ok(front)
            }
            _ => {
                let last = Text::from_text(alloc, name)?;
                self.last = last;
                self.calls = self.calls.saturating_add(1);
                self.faults = self.faults.saturating_add(1);
                Err(FetchFault::Failed)
            }
        }
    }
}
