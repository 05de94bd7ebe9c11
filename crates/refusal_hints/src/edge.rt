//! The texts of edges, and places in them.

use crate::hint::Hint;
use crate::label_fault::{Misfit, high_low_end, misfit_in, wide_end};
use crate::source::Source;
use crate::tree::put_value;
use json_places::Step;
use json_tree::list_at;
use label_grammar::LabelFault;
use serde_json::Value;

/// An edge of a file: the key of its list, its number there, counted from 0, and its text.
#[derive(Clone, Copy)]
pub struct Edge<'a> {
    pub source: Source<'a>,
    pub key: &'static str,
    pub number: u64,
    pub text: &'a str,
}

impl<'a> Edge<'a> {
    /// The edge of a number in the list under a key of the tree of a file. If it is not a text, its text is empty.
    pub fn of(source: Source<'a>, tree: &'a Value, key: &'static str, number: u64) -> Edge<'a> {
        let text = match element_at(tree, key, number) {
            Some(element) => element.as_str().unwrap_or(""),
            None => "",
        };
        Edge {
            source,
            key,
            number,
            text,
        }
    }

    /// Begins a line about the edge as a whole.
    pub fn begin(self, hint: &mut Hint) {
        self.source
            .begin_at_value(hint, &[Step::Key(self.key), Step::Item(self.number)]);
        self.put(hint);
    }

    /// Begins a line about a character of the edge, counted from 0.
    pub fn begin_at(self, hint: &mut Hint, character: u64) {
        let way = [Step::Key(self.key), Step::Item(self.number)];
        self.source.begin_at_character(hint, &way, character);
        self.put(hint);
    }

    /// Begins a line about the place in the edge at which a rest of its text begins.
    pub fn begin_at_rest(self, hint: &mut Hint, rest: &str) {
        self.begin_at(hint, place_in(self.text, rest));
    }

    // The edge with its number and its text.
    fn put(self, hint: &mut Hint) {
        hint.put("edge ");
        hint.put_number(self.number);
        hint.put(" ");
        hint.put_quoted(self.text);
        hint.put(": ");
    }

    /// Puts what is wrong with the edge as a whole.
    pub fn put_wrong(self, hint: &mut Hint, says: &str) {
        self.begin(hint);
        hint.put(says);
    }

    /// Puts why its label is refused, which comes after so many spaces and is of this version.
    pub fn put_label_refused(self, hint: &mut Hint, spaces: u32, version: u32, fault: LabelFault) {
        match misfit_of(label_in(self.text, spaces), version, fault) {
            Some(misfit) => {
                self.begin_at_rest(hint, misfit.rest);
                misfit.put(hint);
            }
            None => self.put_wrong(hint, "the label is not of the form @kind [LOW,HIGH] note"),
        }
    }
}

/// Element n of the list under a key, if it is there.
pub fn element_at<'v>(tree: &'v Value, key: &str, n: u64) -> Option<&'v Value> {
    list_at(tree, key)?.get(n as usize)
}

/// The label of the text of an edge, which comes after so many spaces.
pub fn label_in(text: &str, spaces: u32) -> &str {
    let mut label = text;
    for _ in 0..spaces {
        label = match label.split_once(' ') {
            Some((_, rest)) => rest,
            None => "",
        };
    }
    label
}

/// How many characters a text has before a rest of it.
pub fn place_in(text: &str, rest: &str) -> u64 {
    text.chars().count().saturating_sub(rest.chars().count()) as u64
}

/// Element n of the list of edges under a key is not a text.
pub fn put_no_text(hint: &mut Hint, source: Source<'_>, tree: &Value, key: &str, n: u64) {
    if let Some(element) = element_at(tree, key, n) {
        source.begin_at_value(hint, &[Step::Key(key), Step::Item(n)]);
        hint.put("edge ");
        hint.put_number(n);
        hint.put(" is ");
        put_value(hint, element);
        hint.put(": expected a text in double quotes");
    }
}

// Where a label of a version has this fault.
fn misfit_of(label: &str, version: u32, fault: LabelFault) -> Option<Misfit<'_>> {
    match fault {
        LabelFault::BadLabel => misfit_in(label, version),
        LabelFault::TooWide => wide_end(label),
        LabelFault::EmptyRange => high_low_end(label),
    }
}
