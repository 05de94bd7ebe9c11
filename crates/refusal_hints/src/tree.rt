//! Values of JSON as hints show them, and what is wrong with two ends in a list.

use crate::hint::Hint;
use json_tree::{ends_by, list_of};
use serde_json::Value;

/// Puts the text of a value, on one line.
pub fn put_value(hint: &mut Hint, value: &Value) {
    match value.to_string(hint.alloc()) {
        Ok(text) => {
            hint.put_short(text.as_str());
            drop(text);
        }
        Err(_) => hint.cut(),
    }
}

/// Puts what a key has, and what is expected there.
pub fn put_about_key(hint: &mut Hint, key: &str, value: Option<&Value>, expected: &str) {
    hint.put("its \"");
    hint.put(key);
    match value {
        Some(value) => {
            hint.put("\" is ");
            put_value(hint, value);
            hint.put(": ");
        }
        None => hint.put("\" is missing: "),
    }
    hint.put(expected);
}

/// Whether a value is a list of two ends.
pub fn is_ends(value: &Value) -> bool {
    match list_of(value) {
        Some(list) => ends_by(list).is_some(),
        None => false,
    }
}

/// Puts what a value is or has that should be a list of two ends, and what is expected.
pub fn put_ends_fault(hint: &mut Hint, value: &Value) {
    match list_of(value) {
        Some([low, high]) => put_end_fault(hint, if is_end(low) { high } else { low }),
        _ => {
            hint.put("is ");
            put_value(hint, value);
            hint.put(": expected a list of two ends, such as [100,300], with null for an open end");
        }
    }
}

fn put_end_fault(hint: &mut Hint, end: &Value) {
    hint.put("has the end ");
    put_value(hint, end);
    hint.put(": ");
    hint.put(end_rule(end));
}

fn is_end(value: &Value) -> bool {
    value.is_null() || value.as_i64().is_some()
}

fn end_rule(value: &Value) -> &'static str {
    match value.as_str() {
        Some("*") => "an open end of a list is null; * is for labels",
        Some(_) => "an end is a whole number without quotes, or null if it is open",
        None if value.is_number() =>
            "an end is a whole number of picoseconds, or null if it is open",
        None => "an end is a whole number, or null if it is open",
    }
}
