//! Runs into sinks that are full, or that fail.

use crate::runs::put_end;
use crate::test_case::TestCase;
use itv_base::{NoMemory, SinkMem};
use itv_cli::{Outcome, run};
use std::alloc::Global;

// Room in bytes for what these runs write.
const ROOM: u32 = 4_000;

/// Runs a case with each room from no bytes to all that it writes, and shows how it ends with all its room. Then it shows the first room in which
/// the run does not write all that fits, or does not end with a write fault.
pub fn fill_each_room(
    alloc: Global,
    case: &mut TestCase,
    out: &mut String,
) -> Result<(), NoMemory> {
    let mut whole = SinkMem::new(alloc, ROOM)?;
    let end = run(alloc, &case.words, &mut case.shelf, &mut whole);
    let shown = fill_rooms(alloc, case, &whole, end, out);
    drop(whole);
    shown
}

// The same after the run with all its room.
fn fill_rooms(
    alloc: Global,
    case: &mut TestCase,
    whole: &SinkMem,
    end: Outcome,
    out: &mut String,
) -> Result<(), NoMemory> {
    put_end(end, case, out)?;
    for room in 0..ROOM {
        if !is_filled(alloc, room, case, whole, end)? {
            writeln!(out, "wrong in a room of {room}")?;
            return Ok(());
        }
        if room as usize == whole.bytes().len() {
            out.push_str("right in each room\n")?;
            return Ok(());
        }
    }
    Ok(())
}

// Whether a run into a room writes all that fits, and ends as it should.
fn is_filled(
    alloc: Global,
    room: u32,
    case: &mut TestCase,
    whole: &SinkMem,
    end: Outcome,
) -> Result<bool, NoMemory> {
    let mut sink = SinkMem::new(alloc, room)?;
    let outcome = run(alloc, &case.words, &mut case.shelf, &mut sink);
    let is_full = sink.bytes().len() == room as usize;
    Ok(is_full && is_front(&sink, outcome, whole, end))
}

/// Runs a case with each put that fails in turn, until none does, and shows how it ends then. Before this it shows the first failing put at which
/// the run does not write a front of the text, or does not end with a write fault.
pub fn fail_each_put(alloc: Global, case: &mut TestCase, out: &mut String) -> Result<(), NoMemory> {
    let mut whole = SinkMem::new(alloc, ROOM)?;
    let end = run(alloc, &case.words, &mut case.shelf, &mut whole);
    let shown = fail_puts(alloc, case, &whole, end, out);
    drop(whole);
    shown
}

// The same after the run in which no put fails.
fn fail_puts(
    alloc: Global,
    case: &mut TestCase,
    whole: &SinkMem,
    end: Outcome,
    out: &mut String,
) -> Result<(), NoMemory> {
    put_end(end, case, out)?;
    let mut before = 0usize;
    for call in 0..ROOM {
        let length = match length_after(alloc, call, case, whole, end)? {
            Some(length) if before <= length && (0 < call || length == 0) => length,
            _ => {
                writeln!(out, "wrong where put {call} fails")?;
                return Ok(());
            }
        };
        if length == whole.bytes().len() {
            out.push_str("right where each put fails\n")?;
            return Ok(());
        }
        before = length;
    }
    Ok(())
}

// How many bytes a run writes whose put of a number fails, if they are a front of a text and the run ends as it should.
fn length_after(
    alloc: Global,
    call: u32,
    case: &mut TestCase,
    whole: &SinkMem,
    end: Outcome,
) -> Result<Option<usize>, NoMemory> {
    let mut sink = SinkMem::new(alloc, ROOM)?;
    sink.fail_call(call);
    let outcome = run(alloc, &case.words, &mut case.shelf, &mut sink);
    let is_front = is_front(&sink, outcome, whole, end);
    Ok(is_front.then_some(sink.bytes().len()))
}

// Whether a run wrote a front of a text, and ended as it should: with its own end after the whole text, and else with a write fault.
fn is_front(sink: &SinkMem, outcome: Outcome, whole: &SinkMem, end: Outcome) -> bool {
    let bytes = sink.bytes();
    let text = whole.bytes();
    let wanted = match bytes.len() == text.len() {
        true => end,
        false => Outcome::WriteFault,
    };
    text.starts_with(bytes) && outcome == wanted
}
