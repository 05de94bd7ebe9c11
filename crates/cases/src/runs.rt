//! Runs of a case, and what they show.

use crate::failing_sinks::{fail_each_put, fill_each_room};
use crate::hinted::show_hint;
use crate::shown::Shown;
use crate::test_case::TestCase;
use itv_base::{NoMemory, SinkMem, Texts};
use itv_cli::{Outcome, run};
use std::alloc::Global;
use std::mem::replace;
use std::str;

// Room in bytes for the longest text.
const ROOM: u32 = 32_000_000;

/// Verbs that run a case.
pub fn take_run(
    alloc: Global,
    verb: &str,
    text: &str,
    case: &mut TestCase,
    out: &mut String,
) -> Result<(), NoMemory> {
    match verb {
        "run" => show_run(alloc, &[], case, out),
        "into" => write_file(alloc, &[], text, case),
        "check" => check(alloc, case, out),
        "same" => compare(alloc, text, case, out),
        "each-front" => show_each_front(alloc, case, out),
        "each-room" => fill_each_room(alloc, case, out),
        "fail-each-put" => fail_each_put(alloc, case, out),
        "hint" => show_hint(alloc, text, case, out),
        _ => {
            writeln!(out, "bad line {verb} {text}")?;
            Ok(())
        }
    }
}

// A run on these words and the words of the case. Shows how it ends and what it writes.
fn show_run(
    alloc: Global,
    words: &[&str],
    case: &mut TestCase,
    out: &mut String,
) -> Result<(), NoMemory> {
    let words = words_after(alloc, words, &case.words)?;
    let mut sink = SinkMem::new(alloc, ROOM)?;
    let outcome = run(alloc, &words, &mut case.shelf, &mut sink);
    drop(words);
    let shown = show_end(alloc, outcome, &sink, case, out);
    drop(sink);
    shown
}

/// Shows how a run ended and what it wrote.
pub fn show_end(
    alloc: Global,
    outcome: Outcome,
    sink: &SinkMem,
    case: &mut TestCase,
    out: &mut String,
) -> Result<(), NoMemory> {
    put_end(outcome, case, out)?;
    let text = str::from_utf8(sink.bytes()).unwrap_or("no text");
    case.shown.put_lines(text, "|", out)?;
    case.shown.put_counts(text, out)?;
    drop(replace(&mut case.shown, Shown::new(alloc)));
    Ok(())
}

// A run on these words and the words of the case. What it shows becomes a file.
fn write_file(
    alloc: Global,
    words: &[&str],
    name: &str,
    case: &mut TestCase,
) -> Result<(), NoMemory> {
    let words = words_after(alloc, words, &case.words)?;
    let mut sink = SinkMem::new(alloc, ROOM)?;
    run(alloc, &words, &mut case.shelf, &mut sink);
    drop(words);
    let kept = keep_shown(alloc, name, &sink, case);
    drop(sink);
    kept
}

// What a run shows of what it wrote becomes a file.
fn keep_shown(
    alloc: Global,
    name: &str,
    sink: &SinkMem,
    case: &mut TestCase,
) -> Result<(), NoMemory> {
    let mut file = String::new(alloc);
    let text = str::from_utf8(sink.bytes()).unwrap_or("no text");
    case.shown.put_lines(text, "", &mut file)?;
    drop(replace(&mut case.shown, Shown::new(alloc)));
    case.shelf.add(alloc, name, file.as_bytes())
}

// Job check of the report with proofs that the case writes.
fn check(alloc: Global, case: &mut TestCase, out: &mut String) -> Result<(), NoMemory> {
    write_file(alloc, &["--cert"], "report", case)?;
    let words = ["--job", "check", "--report", "report"];
    show_run(alloc, &words, case, out)
}

// Shows whether two files are the same.
fn compare(
    alloc: Global,
    names: &str,
    case: &mut TestCase,
    out: &mut String,
) -> Result<(), NoMemory> {
    let (first, second) = names.split_once(" ").unwrap_or((names, ""));
    let first = case.fetched(alloc, first);
    let second = case.fetched(alloc, second);
    let text = match first.as_slice() == second.as_slice() {
        true => "the same\n",
        false => "different\n",
    };
    out.push_str(text)?;
    Ok(())
}

// A run for each front of the file `whole` that is not all of it. The front is the file `edited`.
fn show_each_front(alloc: Global, case: &mut TestCase, out: &mut String) -> Result<(), NoMemory> {
    let whole = case.fetched(alloc, "whole");
    for length in 0..whole.len() {
        case.shelf.add(alloc, "edited", &whole[..length])?;
        show_run(alloc, &[], case, out)?;
    }
    Ok(())
}

// These words, and then the words of a list.
fn words_after(alloc: Global, first: &[&str], words: &Texts) -> Result<Texts, NoMemory> {
    let mut all = Texts::new(alloc)?;
    for word in first {
        all.push(alloc, word)?;
    }
    for word in words.as_slice() {
        all.push(alloc, word.as_text())?;
    }
    Ok(all)
}

/// Puts the number of a run in its case, how it ended, and the exit status.
pub fn put_end(outcome: Outcome, case: &mut TestCase, out: &mut String) -> Result<(), NoMemory> {
    case.runs = case.runs.saturating_add(1);
    let number = case.runs;
    let end = name_of(outcome);
    let status = outcome.code();
    writeln!(out, "run {number} ends {end} {status}")?;
    Ok(())
}

// The name of an outcome.
fn name_of(outcome: Outcome) -> &'static str {
    match outcome {
        Outcome::AllPass => "AllPass",
        Outcome::Help => "Help",
        Outcome::SomeFail => "SomeFail",
        Outcome::Inconsistent => "Inconsistent",
        Outcome::Undecided => "Undecided",
        Outcome::Refused => "Refused",
        Outcome::ReadFault => "ReadFault",
        Outcome::WriteFault => "WriteFault",
        Outcome::NoMemory => "NoMemory",
        Outcome::BadWords => "BadWords",
        Outcome::CheckRefused => "CheckRefused",
    }
}
