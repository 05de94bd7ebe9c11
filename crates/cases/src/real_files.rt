//! Real files and standard output, of which no clause speaks.

use crate::runs::show_end;
use crate::test_case::TestCase;
use itv_base::{NoMemory, Shelf, ShelfDir, Sink, SinkMem, SinkOut};
use itv_cli::run;
use std::alloc::Global;
use std::rt::Files;
use std::{fs, io, str};

// Room in bytes for what a run on real files writes.
const ROOM: u32 = 4_000;

/// Verbs about real files, which lie in the folder of the program, and about standard output.
pub fn take_real<R: Files + Print + AllocGlobal>(
    rt: &R,
    text: &str,
    case: &mut TestCase,
    out: &mut String,
) -> Result<(), NoMemory> {
    let alloc = rt.alloc();
    case.file.close(alloc, &mut case.shelf)?;
    let (verb, name) = text.split_once(" ").unwrap_or((text, ""));
    match verb {
        "file" => write_real(rt, alloc, name, case, out),
        "remove" => put_failed(fs::remove_file(rt, name), out),
        "folder" => put_failed(fs::create_dir(rt, name), out),
        "remove-folder" => put_failed(fs::remove_dir(rt, name), out),
        "fetch" => fetch(rt, alloc, name, out),
        "run" => run_real(rt, alloc, case, out),
        "put" => put_real(rt, name, out),
        _ => {
            writeln!(out, "bad line real {text}")?;
            Ok(())
        }
    }
}

// Writes a file of the case as a real one.
fn write_real<R: Files>(
    rt: &R,
    alloc: Global,
    name: &str,
    case: &mut TestCase,
    out: &mut String,
) -> Result<(), NoMemory> {
    let bytes = case.fetched(alloc, name);
    put_failed(fs::write(rt, name, bytes.as_slice()), out)
}

// Says that something failed, if it did.
fn put_failed(done: io::Result<()>, out: &mut String) -> Result<(), NoMemory> {
    if done.is_err() {
        out.push_str("failed\n")?;
    }
    Ok(())
}

// Shows the first bytes of a real file after a bar: a number of them, and a name.
fn fetch<R: Files>(rt: &R, alloc: Global, text: &str, out: &mut String) -> Result<(), NoMemory> {
    let (cap, name) = text.split_once(" ").unwrap_or(("0", text));
    let mut shelf = ShelfDir::new(alloc, rt)?;
    match shelf.fetch(alloc, name, cap.parse::<u32>().unwrap_or(0)) {
        Ok(bytes) => {
            let text = str::from_utf8(bytes.as_slice()).unwrap_or("no text");
            writeln!(out, "|{text}")?;
        }
        Err(_) => out.push_str("failed\n")?,
    }
    Ok(())
}

// A run on real files.
fn run_real<R: Files>(
    rt: &R,
    alloc: Global,
    case: &mut TestCase,
    out: &mut String,
) -> Result<(), NoMemory> {
    let mut shelf = ShelfDir::new(alloc, rt)?;
    let mut sink = SinkMem::new(alloc, ROOM)?;
    let outcome = run(alloc, &case.words, &mut shelf, &mut sink);
    drop(shelf);
    let shown = show_end(alloc, outcome, &sink, case, out);
    drop(sink);
    shown
}

// Puts a text and its line end to standard output.
fn put_real<R: Print>(rt: &R, text: &str, out: &mut String) -> Result<(), NoMemory> {
    let mut sink = SinkOut::new(rt);
    if sink.put(text.as_bytes()).is_err() || sink.put(b"\n").is_err() {
        out.push_str("failed\n")?;
    }
    Ok(())
}
