//! Why a file of edits is refused.

use crate::edge::place_in;
use crate::hint::Hint;
use crate::label_fault::{Misfit, high_low_end, range_misfit, wide_end};
use crate::source::Source;
use itv_base::RangeFault;
use range_edits::EditsFault;

/// Why a file of edits is refused.
pub fn put_edits_fault(hint: &mut Hint, source: Source<'_>, fault: EditsFault) {
    match fault {
        EditsFault::TooLong => {
            source.begin(hint);
            hint.put("it has more than 1,048,576 bytes");
        }
        EditsFault::TooMany(count) => put_too_many(hint, source, count),
        EditsFault::Line(n) | EditsFault::Range(n, _) | EditsFault::NoSuch(n) => {
            put_line_fault(hint, source, n, fault)
        }
        EditsFault::NoMemory => hint.cut(),
    }
}

fn put_too_many(hint: &mut Hint, source: Source<'_>, count: u64) {
    source.begin(hint);
    hint.put("it has ");
    hint.put_number(count);
    hint.put(" lines (limit 1,000)");
}

// What is wrong with a line of a file.
fn put_line_fault(hint: &mut Hint, source: Source<'_>, n: u64, fault: EditsFault) {
    match String::from_utf8_lossy(hint.alloc(), line_at(source.bytes, n)) {
        Ok(text) => {
            let line = Line {
                source,
                number: n,
                text: text.as_str(),
            };
            line.put_why(hint, fault);
            drop(text);
        }
        Err(_) => hint.cut(),
    }
}

// The line with a number, counted from 1, without its end.
fn line_at(bytes: &[u8], n: u64) -> &[u8] {
    let mut number = 1u64;
    for line in bytes.split(|byte| *byte == b'\n') {
        if number == n {
            return line;
        }
        number = number.saturating_add(1);
    }
    b""
}

// Whether nothing comes after a line, not even a line end.
fn is_last(bytes: &[u8], n: u64) -> bool {
    let mut feeds = 0u64;
    for byte in bytes {
        if *byte == b'\n' {
            feeds = feeds.saturating_add(1);
        }
    }
    feeds.saturating_add(1) == n
}

// A line of a file: its number, counted from 1, and its text without its end.
#[derive(Clone, Copy)]
struct Line<'a> {
    source: Source<'a>,
    number: u64,
    text: &'a str,
}

impl Line<'_> {
    // Puts what is wrong with the line.
    fn put_why(self, hint: &mut Hint, fault: EditsFault) {
        match fault {
            EditsFault::Range(_, RangeFault::TooWide) => self.put_misfit(hint, wide_end(self.text)),
            EditsFault::Range(_, RangeFault::EmptyRange) => {
                self.put_misfit(hint, high_low_end(self.text))
            }
            EditsFault::NoSuch(_) => self.put_wrong(hint, missing_in(self.text)),
            _ if self.text.ends_with('\r') => self.put_wrong(hint, RETURN),
            _ if is_last(self.source.bytes, self.number) => {
                self.put_wrong(hint, "the line has no line end")
            }
            _ => self.put_misfit(hint, range_misfit(self.text)),
        }
    }

    // Puts what is wrong with its range, or else that the line is not of the form.
    fn put_misfit(self, hint: &mut Hint, misfit: Option<Misfit<'_>>) {
        match misfit {
            Some(misfit) => {
                self.begin(hint, place_in(self.text, misfit.rest));
                misfit.put(hint);
            }
            None => self.put_wrong(hint, FORM),
        }
    }

    // Puts what is wrong with the whole line.
    fn put_wrong(self, hint: &mut Hint, says: &str) {
        self.begin(hint, 0);
        hint.put(says);
    }

    // Begins a line of the hint about a character of the line, counted from 0.
    fn begin(self, hint: &mut Hint, character: u64) {
        self.source
            .begin_at(hint, self.number, character.saturating_add(1));
        hint.put_quoted(self.text);
        hint.put(": ");
    }
}

const RETURN: &str = "the line ends with a carriage return: save the file with line feeds alone";

const FORM: &str =
    "an edit is set SUBJECT [LOW,HIGH], where SUBJECT is PART edge N, net N, wire N or C.I, such as set RAM edge 0 [3000,15000]";

// What is said of a line that names nothing of the design.
fn missing_in(line: &str) -> &'static str {
    if line.split_once(" edge ").is_some() {
        "this edge of this part draws no rule: edges count from 0, and @req and @ask draw none"
    } else if line.starts_with("set net ") {
        "this net draws no rule: nets count from 0"
    } else if line.starts_with("set wire ") {
        "this edge of the netlist draws no rule: edges count from 0, and @req and @ask draw none"
    } else {
        "the design has no such constraint, or the constraint no such cause: --cert prints them with their numbers"
    }
}
