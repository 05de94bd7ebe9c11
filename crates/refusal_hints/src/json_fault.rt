//! Why a file is not strict JSON, and where.

use crate::hint::Hint;
use crate::source::Source;
use json_places::byte_at;
use serde_json::Value;
use std::str;

// What turns a relaxed file into a strict one.
const STRICT: &str = "tools/strict FILE prints WaveDrom's relaxed spelling as strict JSON";

const ENDS_EARLY: &str = "the file ends too early: a bracket or a quote is not closed";

const IN_QUOTES: &str = "texts and keys need double quotes";

const NOT_STRICT: &str = "this is not strict JSON";

/// Why a file is not JSON.
pub fn put_json_fault(hint: &mut Hint, source: Source<'_>) {
    if is_blank(source.bytes) {
        source.begin(hint);
        hint.put("the file is empty");
        return;
    }
    match first_fault(source.bytes) {
        Some(says) => {
            source.begin_at(hint, 1, 1);
            hint.put(says);
        }
        None => put_read_fault(hint, source),
    }
}

fn is_blank(bytes: &[u8]) -> bool {
    bytes.iter().all(|byte| byte.is_ascii_whitespace())
}

// What is wrong with the first bytes of a file.
fn first_fault(bytes: &[u8]) -> Option<&'static str> {
    if bytes.starts_with(b"\xff\xfe") || bytes.starts_with(b"\xfe\xff") {
        Some("the file is UTF-16: save it as UTF-8")
    } else if bytes.starts_with(b"\xef\xbb\xbf") {
        Some("the file begins with a byte order mark: save it as UTF-8 without one")
    } else {
        None
    }
}

// What a reading of the file finds.
fn put_read_fault(hint: &mut Hint, source: Source<'_>) {
    match Value::from_slice(hint.alloc(), source.bytes) {
        Ok(tree) => {
            drop(tree);
            source.begin(hint);
            hint.put(NOT_STRICT);
        }
        Err(error) => {
            let at = byte_at(source.bytes, error.line(), error.column());
            let is_early = error.is_eof();
            drop(error);
            put_fault_at(hint, source, at, is_early);
        }
    }
}

// What is wrong at a byte, or that the file ends too early.
fn put_fault_at(hint: &mut Hint, source: Source<'_>, at: usize, is_early: bool) {
    source.begin_at_byte(hint, at);
    hint.put(if str::from_utf8(source.bytes).is_err() {
        "this byte is not UTF-8: save the file as UTF-8"
    } else if is_early {
        ENDS_EARLY
    } else {
        place_fault(source.bytes, at)
    });
    hint.put("; ");
    hint.put(STRICT);
}

// What is wrong at a byte.
fn place_fault(bytes: &[u8], at: usize) -> &'static str {
    match bytes.get(at) {
        Some(here) => byte_fault(last_before(bytes, at), *here),
        None => ENDS_EARLY,
    }
}

// The last byte before a place that is not a blank, or 0.
fn last_before(bytes: &[u8], at: usize) -> u8 {
    let mut last = 0;
    for byte in bytes.iter().take(at) {
        if !byte.is_ascii_whitespace() {
            last = *byte;
        }
    }
    last
}

// What is wrong with a byte after another one.
fn byte_fault(before: u8, here: u8) -> &'static str {
    if before == b',' && is_close(here) {
        "remove the comma before the closing bracket"
    } else if before == b',' && here == b',' {
        "there is one comma too many"
    } else if here == b'\'' || here == b'`' {
        IN_QUOTES
    } else if here == b'/' {
        "JSON has no comments"
    } else if is_open(before) || before == b',' || before == b':' {
        begin_fault(here)
    } else if ends_value(before) && begins_value(here) {
        "expected a comma or a colon before this"
    } else {
        NOT_STRICT
    }
}

// What is wrong with a byte with which a key or a value should begin.
fn begin_fault(here: u8) -> &'static str {
    if here == b'"' {
        "line ends, tabs and unknown escapes are not allowed in a text"
    } else if is_open(here) {
        "the nesting is deeper than 127"
    } else if here.is_ascii_alphabetic() || here == b'_' || here == b'$' {
        IN_QUOTES
    } else if here == b'+' || here == b'.' {
        "a number begins with a digit or with -"
    } else {
        NOT_STRICT
    }
}

fn is_open(byte: u8) -> bool {
    byte == b'{' || byte == b'['
}

fn is_close(byte: u8) -> bool {
    byte == b'}' || byte == b']'
}

fn ends_value(byte: u8) -> bool {
    byte == b'"' || is_close(byte) || byte.is_ascii_alphanumeric()
}

fn begins_value(byte: u8) -> bool {
    byte == b'"' || is_open(byte) || byte == b'-' || byte.is_ascii_digit()
}
