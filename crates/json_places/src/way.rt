//! The way from a value to one in it.

use crate::scan::{Scan, depth_after};
use crate::text::is_text;

/// A step from a value to one in it.
#[derive(Clone, Copy)]
pub enum Step<'k> {
    /// To the value under a key of an object, the last one if the key is there twice.
    Key(&'k str),
    /// To the item of a list with this number, counted from 0.
    Item(u64),
    /// To the object with this number, counted from 0, among the items of a list and of the lists in it.
    Object(u64),
}

/// Where the value begins to which these steps lead from the value that is the whole text. If there is no such value, it is where the last value begins to which they
/// lead.
pub fn value_at(bytes: &[u8], way: &[Step<'_>]) -> usize {
    let mut scan = Scan::new(bytes, 0);
    scan.pass_blanks();
    for step in way {
        match after_step(scan, *step) {
            Some(next) => scan = next,
            None => break,
        }
    }
    scan.at()
}

// The value after a step, if it is there.
fn after_step<'a>(scan: Scan<'a>, step: Step<'_>) -> Option<Scan<'a>> {
    match step {
        Step::Key(key) => member(scan, key),
        Step::Item(number) => item(scan, number),
        Step::Object(number) => object(scan, number),
    }
}

// The value under a key of the object here.
fn member<'a>(scan: Scan<'a>, key: &str) -> Option<Scan<'a>> {
    let mut scan = scan;
    let mut found = None;
    if !scan.takes(b'{') {
        return None;
    }
    for _ in 0..scan.len() {
        scan.pass_blanks();
        let is_key = is_text(scan, key);
        scan.pass_value();
        if !scan.takes(b':') {
            break;
        }
        scan.pass_blanks();
        if is_key {
            found = Some(scan);
        }
        scan.pass_value();
        if !scan.takes(b',') {
            break;
        }
    }
    found
}

// The item of a number of the list here.
fn item<'a>(scan: Scan<'a>, number: u64) -> Option<Scan<'a>> {
    let mut scan = scan;
    if !scan.takes(b'[') {
        return None;
    }
    for _ in 0..number {
        scan.pass_value();
        if !scan.takes(b',') {
            return None;
        }
    }
    scan.pass_blanks();
    match scan.here() {
        None | Some(b']') => None,
        Some(_) => Some(scan),
    }
}

// The object of a number among the items of the list here and of the lists in it.
fn object<'a>(scan: Scan<'a>, number: u64) -> Option<Scan<'a>> {
    let mut scan = scan;
    let mut left = number;
    let mut depth = 0u64;
    if scan.here() != Some(b'[') {
        return None;
    }
    for _ in 0..scan.len() {
        match scan.here()? {
            b'{' if left == 0 => return Some(scan),
            b'{' => {
                left = left.saturating_sub(1);
                scan.pass_value();
            }
            b'"' => scan.pass_text(),
            b']' if depth <= 1 => return None,
            byte => {
                depth = depth_after(depth, byte);
                scan.pass(1);
            }
        }
    }
    None
}
