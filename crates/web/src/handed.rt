//! A run over files in memory. What it writes is handed over to a page.

ghost use Rattle.std.specs.Prelude.{◌≡◌, ◌≤◌, ◌<◌, [], length, take};
ghost use Rattle.itv_cli.specs.Status.{code_of};
ghost use Rattle.web.specs.Given.{Given, IsFit, files_in, words_in};
ghost use Rattle.web.specs.Answered.{IsAnswered, usable};

use crate::NO_ROOM;
use itv_base::{NoMemory, ShelfMem, SinkMem, Texts};
use itv_cli::{Outcome, run};
use std::alloc::Global;

/// Runs on words over files, and hands over what the run writes. Nothing was handed over before.
pub fn answer(
    alloc: Global,
    words: &Texts,
    shelf: &mut ShelfMem,
    out: &mut [u8],
    wrote: &mut u32,
) -> u8
    requires { wrote.old ≡ 0 }
    ensures answered { (given : Given) → IsFit given → words.now ≡ words_in given
        → shelf.old ≡ record { files = files_in given; failing = []; calls = 0; faults = 0; last = [] }
        → IsAnswered given result wrote.new out.new }
{
    match SinkMem::new(alloc, usable_of(out)) {
        Ok(mut sink) => {
            let outcome = run(alloc, words, shelf, &mut sink);
            hand_over(outcome, sink.bytes(), out, wrote)
        }
        Err(NoMemory) => Outcome::NoMemory.code(),
    }
}

/// Hands over a text and the status of an outcome if there is room for the text.
pub fn hand_over(outcome: Outcome, text: &[u8], out: &mut [u8], wrote: &mut u32) -> u8
    requires { wrote.old ≡ 0 }
    ensures fits { length text.now ≤ usable out.old
        → (result ≡ code_of outcome) × (wrote.new ≡ length text.now) × (take wrote.new out.new ≡ text.now) }
    ensures no_room { usable out.old < length text.now → (result ≡ NO_ROOM) × (wrote.new ≡ 0) }
{
    let len = text.len();
    if len > usable_of(out) as usize {
        return NO_ROOM;
    }
    out[..len].copy_from_slice(text);
    *wrote = len as u32;
    outcome.code()
}

// How many bytes may be written into a room.
fn usable_of(out: &[u8]) -> u32
    ensures { result ≡ usable out.now }
{
    out.len().min(u32::MAX as usize) as u32
}
