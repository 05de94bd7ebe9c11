//! The lines of the input.

use crate::runs::take_run;
use crate::test_case::TestCase;
use design_gen::make;
use itv_base::{NoMemory, Texts};
use std::alloc::Global;
use std::mem::replace;

/// Takes a line of the input. What comes of it is put at the end of `out`.
pub fn take_line(
    alloc: Global,
    line: &str,
    case: &mut TestCase,
    out: &mut String,
) -> Result<(), NoMemory> {
    if let Some(text) = line.strip_prefix("|") {
        return case.file.push_line(text);
    }
    let (verb, text) = line.split_once(" ").unwrap_or((line, ""));
    match verb {
        "" | "#" => Ok(()),
        ":" => case.file.push(text.as_bytes()),
        "bytes" => case.file.push_numbers(text),
        "repeat" => repeat(text, case),
        _ => {
            case.file.close(alloc, &mut case.shelf)?;
            take_verb(alloc, verb, text, case, out)
        }
    }
}

// Verbs that prepare runs. The open file is closed.
fn take_verb(
    alloc: Global,
    verb: &str,
    text: &str,
    case: &mut TestCase,
    out: &mut String,
) -> Result<(), NoMemory> {
    match verb {
        "=" => begin(alloc, text, case, out),
        "word" => case.words.push(alloc, text),
        "words" => set_words(alloc, text, case),
        "file" => case.file.open(text, b"", b""),
        "forge" => forge(alloc, text, case),
        "generate" => generate(alloc, text, case),
        "fail-fetch" => case.shelf.fail_call(number_of(text)),
        "show" => case.shown.keep_front(alloc, text),
        "count" => case.shown.count(alloc, text),
        "open" => open_lines(text, case),
        "lines" => {
            let (first, last) = numbers_of(text);
            case.shown.keep_lines(first, last);
            Ok(())
        }
        _ => take_run(alloc, verb, text, case, out),
    }
}

// Begins the next case.
fn begin(alloc: Global, name: &str, case: &mut TestCase, out: &mut String) -> Result<(), NoMemory> {
    drop(replace(case, TestCase::new(alloc)?));
    writeln!(out, "= {name}")?;
    Ok(())
}

// The words are those of a text, parted by blanks.
fn set_words(alloc: Global, text: &str, case: &mut TestCase) -> Result<(), NoMemory> {
    drop(replace(&mut case.words, Texts::new(alloc)?));
    for word in text.split_whitespace() {
        case.words.push(alloc, word)?;
    }
    Ok(())
}

// A number and a line that stands as often in the file.
fn repeat(text: &str, case: &mut TestCase) -> Result<(), NoMemory> {
    let (count, line) = text.split_once(" ").unwrap_or((text, ""));
    case.file.repeat_line(number_of(count), line)
}

// Opens the file `edited`: the file `whole` without the lines of these numbers.
fn forge(alloc: Global, text: &str, case: &mut TestCase) -> Result<(), NoMemory> {
    let (first, last) = numbers_of(text);
    let whole = case.fetched(alloc, "whole");
    let front = length_of(&whole, first.saturating_sub(1)).min(whole.len());
    let back = length_of(&whole, last).min(whole.len());
    case.file.open("edited", &whole[..front], &whole[back..])
}

// How many bytes the first lines of a file have, so many of them.
fn length_of(bytes: &[u8], lines: u32) -> usize {
    let mut left = lines;
    for (place, byte) in bytes.iter().enumerate() {
        if left == 0 {
            return place;
        }
        if *byte == b'\n' {
            left = left.saturating_sub(1);
        }
    }
    bytes.len()
}

// The files are those of the generated design of a size.
fn generate(alloc: Global, text: &str, case: &mut TestCase) -> Result<(), NoMemory> {
    if let Ok(shelf) = make(alloc, number_of(text)) {
        drop(replace(&mut case.shelf, shelf));
    }
    Ok(())
}

// The lines of these numbers are open from their second word on, or from the word after as many as stand after a colon.
fn open_lines(text: &str, case: &mut TestCase) -> Result<(), NoMemory> {
    for word in text.split_whitespace() {
        let (number, words) = word.split_once(":").unwrap_or((word, "1"));
        case.shown.open_line(number_of(number), number_of(words))?;
    }
    Ok(())
}

// Two numbers, or one number twice.
fn numbers_of(text: &str) -> (u32, u32) {
    let (first, last) = text.split_once(" ").unwrap_or((text, text));
    (number_of(first), number_of(last))
}

// A number, or 0 for a text that is none.
fn number_of(text: &str) -> u32 {
    text.parse::<u32>().unwrap_or(0)
}
