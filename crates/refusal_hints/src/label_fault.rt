//! Why a text is not a label: where it leaves the form `@kind+K:tag [LOW,HIGH] note`, and what is wrong there.

use crate::hint::Hint;
use itv_base::{END_LIMIT, MAX_SHIFT, is_name, split_digits, split_name, strip};

/// The place in a label where its form ends, and what is wrong there.
#[derive(Clone, Copy)]
pub struct Misfit<'a> {
    /// What is left of the label there.
    pub rest: &'a str,
    // A word of the label that is shown, with what is said before it.
    shown: Option<(&'static str, &'a str)>,
    says: &'static str,
}

impl<'a> Misfit<'a> {
    fn new(rest: &'a str, says: &'static str) -> Misfit<'a> {
        Misfit {
            rest,
            shown: None,
            says,
        }
    }

    fn shown(rest: &'a str, front: &'static str, word: &'a str, says: &'static str) -> Misfit<'a> {
        Misfit {
            rest,
            shown: Some((front, word)),
            says,
        }
    }

    /// Puts what is wrong.
    pub fn put(self, hint: &mut Hint) {
        if let Some((front, word)) = self.shown {
            hint.put(front);
            hint.put_quoted(word);
        }
        hint.put(self.says);
    }
}

/// What is said of ends that are the wrong way round.
pub const EMPTY_RANGE: &str = "the low end is above the high end";

/// The first end of a text with one range that is beyond the limit, or `None` if there is none.
pub fn wide_end(text: &str) -> Option<Misfit<'_>> {
    let (low, high) = ends_in(text)?;
    let rest = if is_wide(low) { low } else { high };
    Some(Misfit::new(
        rest,
        "an end is beyond 10,000,000,000,000 ps: an open end is *",
    ))
}

/// The low end of a text with one range whose ends are the wrong way round, or `None` if there is no range.
pub fn high_low_end(text: &str) -> Option<Misfit<'_>> {
    let (low, _) = ends_in(text)?;
    Some(Misfit::new(low, EMPTY_RANGE))
}

/// Where the range of a text leaves the form, or what comes after it, or `None` if the text has no range or nothing is wrong with it.
pub fn range_misfit(text: &str) -> Option<Misfit<'_>> {
    let (_, ends) = text.split_once('[')?;
    match after_ends(ends) {
        Ok("") => None,
        Ok(rest) => Some(Misfit::new(rest, "unexpected text after the range")),
        Err(misfit) => Some(misfit),
    }
}

// The text from the low end of its range on, and from its high end on.
fn ends_in(text: &str) -> Option<(&str, &str)> {
    let (_, low) = text.split_once('[')?;
    let (_, high) = low.split_once(',')?;
    Some((low, high))
}

// Whether the end that a text begins with is beyond the limit.
fn is_wide(text: &str) -> bool {
    let (end, _) = split_end(text);
    match strip(end, "-").unwrap_or(end).parse::<i64>() {
        Ok(number) => END_LIMIT < number,
        Err(_) => end != "*",
    }
}

/// Where a label of a version leaves the form, or `None` if it does not.
pub fn misfit_in(label: &str, version: u32) -> Option<Misfit<'_>> {
    match walk(label, version) {
        Ok(_) => None,
        Err(misfit) => Some(misfit),
    }
}

fn walk(label: &str, version: u32) -> Result<&str, Misfit<'_>> {
    let rest = strip(label, "@").unwrap_or(label);
    let (word, tail) = split_name(rest);
    if word.is_empty() {
        return wrong(
            rest,
            "expected a kind after @: lin, late, early, req or ask",
        );
    }
    if !is_kind(word) {
        return Err(Misfit::shown(rest, "there is no kind ", word, KINDS));
    }
    let rest = after_shift(tail)?;
    let rest = after_tag(rest)?;
    if word == "ask" {
        return after_end(rest, NO_SPACE);
    }
    let rest = after_span(rest, version)?;
    after_end(rest, "expected a space between the range and the note")
}

const KINDS: &str = ": the kinds are lin, late, early, req and ask, in small letters";

const NO_SPACE: &str = "expected a space here";

const NO_RANGE: &str = "expected a range here, such as [0,2000]";

const SPACE_IN_RANGE: &str = "remove the space in the range";

const NOT_CLOSED: &str = "a range ends with ]";

fn wrong<'a>(rest: &'a str, says: &'static str) -> Result<&'a str, Misfit<'a>> {
    Err(Misfit::new(rest, says))
}

fn is_kind(word: &str) -> bool {
    matches!(word, "lin" | "late" | "early" | "req" | "ask")
}

// What is left after `+` and a shift, if they are there.
fn after_shift(text: &str) -> Result<&str, Misfit<'_>> {
    let Some(rest) = strip(text, "+") else {
        return Ok(text);
    };
    let (digits, tail) = split_digits(rest);
    match digits.parse::<u32>() {
        Ok(shift) if 1 <= shift && shift <= MAX_SHIFT && !digits.starts_with('0') => Ok(tail),
        _ => wrong(rest, "expected a whole number from 1 to 64 after +"),
    }
}

// What is left after `:` and a tag, if they are there.
fn after_tag(text: &str) -> Result<&str, Misfit<'_>> {
    let Some(rest) = strip(text, ":") else {
        return Ok(text);
    };
    let (tag, tail) = split_name(rest);
    if !is_name(tag) {
        return wrong(
            rest,
            "expected a tag of 1 to 16 letters, digits or _ after :",
        );
    }
    if tail.starts_with('+') {
        return wrong(tail, "put +N before the tag");
    }
    Ok(tail)
}

// What is left after a space and a range or a name.
fn after_span(text: &str, version: u32) -> Result<&str, Misfit<'_>> {
    if text.is_empty() {
        return wrong(text, NO_RANGE);
    }
    let Some(rest) = strip(text, " ") else {
        return wrong(text, NO_SPACE);
    };
    if rest.starts_with(' ') {
        return wrong(rest, "only one space goes before the range");
    }
    if let Some(name) = strip(rest, "$") {
        return after_name(rest, name, version);
    }
    match strip(rest, "[") {
        Some(ends) => after_ends(ends),
        None if rest.is_empty() => wrong(rest, NO_RANGE),
        None => wrong(rest, "a range is in brackets, such as [0,2000]"),
    }
}

// What is left after `$` and a name.
fn after_name<'a>(text: &'a str, name: &'a str, version: u32) -> Result<&'a str, Misfit<'a>> {
    if version != 2 {
        return wrong(text, "$ needs a netlist with \"itv\": 2");
    }
    let (word, tail) = split_name(name);
    if is_name(word) {
        Ok(tail)
    } else {
        wrong(
            name,
            "expected a name of 1 to 16 letters, digits or _ after $",
        )
    }
}

// What is left after two ends and `]`.
fn after_ends(text: &str) -> Result<&str, Misfit<'_>> {
    let rest = after_number(text, SPACE_IN_RANGE)?;
    if rest.starts_with(']') {
        return wrong(rest, "a range has two ends, such as [0,2000]");
    }
    let Some(rest) = strip(rest, ",") else {
        return wrong(rest, NOT_CLOSED);
    };
    let rest = after_number(rest, "remove the space after the comma")?;
    if rest.starts_with(',') {
        return wrong(rest, "a range has two ends and one comma");
    }
    match strip(rest, "]") {
        Some(tail) => Ok(tail),
        None => wrong(rest, NOT_CLOSED),
    }
}

// What is left after an end. `space` is what is said of a space before it.
fn after_number<'a>(text: &'a str, space: &'static str) -> Result<&'a str, Misfit<'a>> {
    if text.starts_with(' ') {
        return wrong(text, space);
    }
    let (end, rest) = split_end(text);
    if end.is_empty() {
        return wrong(text, "an end is missing: an open end is *");
    }
    if !is_end(end) {
        return Err(Misfit::shown(text, "", end, why_no_end(end)));
    }
    if rest.starts_with(' ') {
        return wrong(rest, SPACE_IN_RANGE);
    }
    Ok(rest)
}

// The text up to a comma, a bracket or a space, and the text after it.
fn split_end(text: &str) -> (&str, &str) {
    let end = text.split([',', ']', ' ']).next().unwrap_or(text);
    (end, strip(text, end).unwrap_or(""))
}

// Whether a text is an end: `*`, or a number with or without a minus.
fn is_end(end: &str) -> bool {
    end == "*" || is_number(strip(end, "-").unwrap_or(end), end)
}

// Whether these are the digits of a number without a leading zero. `-0` is none.
fn is_number(digits: &str, end: &str) -> bool {
    let (run, tail) = split_digits(digits);
    tail.is_empty() && !run.is_empty() && (!run.starts_with('0') || end == "0")
}

// What is said after a text that is not an end.
fn why_no_end(end: &str) -> &'static str {
    let digits = end.trim_start_matches(['-', '+']);
    let (run, tail) = split_digits(digits);
    if tail.is_empty() && !run.is_empty() {
        return " has a leading zero or plus: write it as 7, -7 or 0";
    }
    match strip(tail, ".") {
        Some(fraction) if is_digits(fraction) && !fraction.is_empty() => {
            " is not a whole number: times are in whole picoseconds"
        }
        _ => " is not a whole number: an open end is *",
    }
}

fn is_digits(text: &str) -> bool {
    let (_, tail) = split_digits(text);
    tail.is_empty()
}

// Nothing is left, or a space and a note.
fn after_end<'a>(text: &'a str, why: &'static str) -> Result<&'a str, Misfit<'a>> {
    if text.is_empty() || text.starts_with(' ') {
        Ok("")
    } else {
        wrong(text, why)
    }
}
