//! The text of a hint, with names and texts of files as hints show them.

use itv_base::NoMemory;
use json_places::Place;
use std::alloc::Global;
use std::fmt::Write;

// The most characters of a text that are shown.
const MOST_SHOWN: usize = 120;

// The most names of a list that are shown.
const MOST_NAMED: u64 = 100;

/// A text of lines that grows piece by piece. If memory is not found, the text is cut: it takes nothing more, and its end is a fault. So a caller asks once,
/// at the end, and not after each piece.
#[derive(Drop)]
pub struct Hint {
    alloc: Global,
    text: String,
    is_cut: bool,
}

impl Hint {
    /// An empty text.
    pub fn new(alloc: Global) -> Hint {
        Hint {
            alloc,
            text: String::new(alloc),
            is_cut: false,
        }
    }

    /// What the text takes its memory from.
    pub fn alloc(&self) -> Global {
        self.alloc
    }

    /// Whether nothing was put yet.
    pub fn is_empty(&self) -> bool {
        self.text.is_empty()
    }

    /// Cuts the text, as memory for what it is about was not found.
    pub fn cut(&mut self) {
        self.is_cut = true;
    }

    /// The whole text, if it was not cut.
    pub fn end(self) -> Result<String, NoMemory> {
        if self.is_cut {
            Err(NoMemory)
        } else {
            Ok(self.text)
        }
    }

    /// Begins a line about no place of a file.
    pub fn begin(&mut self) {
        self.end_line();
        self.put("itv: ");
    }

    /// Begins a line about a place of the file of a name, in the form that editors and build logs know.
    pub fn begin_at(&mut self, name: &str, place: Place) {
        self.end_line();
        self.put_plain(name);
        self.put(":");
        self.put_number(place.line);
        self.put(":");
        self.put_number(place.column);
        self.put(": ");
    }

    /// Ends the line, if there is one.
    pub fn end_line(&mut self) {
        if !self.is_empty() {
            self.put("\n");
        }
    }

    /// Puts a text as it is.
    pub fn put(&mut self, text: &str) {
        if !self.is_cut {
            self.is_cut = self.text.push_str(text).is_err();
        }
    }

    fn push(&mut self, character: char) {
        if !self.is_cut {
            self.is_cut = self.text.push(character).is_err();
        }
    }

    /// Puts a character: a control character is shown as `?`.
    pub fn put_character(&mut self, character: char) {
        self.push(if character.is_control() {
            '?'
        } else {
            character
        });
    }

    /// Puts a number.
    pub fn put_number(&mut self, number: u64) {
        self.put_count(u128::from(number));
    }

    /// Puts a number that may be beyond 64 bits.
    pub fn put_count(&mut self, count: u128) {
        if !self.is_cut {
            self.is_cut = write!(self.text, "{count}").is_err();
        }
    }

    /// Puts a text on one line: a control character is shown as `?`.
    pub fn put_plain(&mut self, text: &str) {
        for shown in text.chars() {
            self.put_character(shown);
        }
    }

    /// Puts a text on one line, and of a long one its first 120 characters and `..`.
    pub fn put_short(&mut self, text: &str) {
        for shown in text.chars().take(MOST_SHOWN) {
            self.put_character(shown);
        }
        if text.chars().count() > MOST_SHOWN {
            self.put("..");
        }
    }

    /// Puts a short text in quotes.
    pub fn put_quoted(&mut self, text: &str) {
        self.put("'");
        self.put_short(text);
        self.put("'");
    }

    /// Puts a mark, which is a visible character of ASCII.
    pub fn put_mark(&mut self, mark: u8) {
        self.push(char::from(mark));
    }

    /// Puts the words before so many names, as `the parts are `, or that there are none. `one` is the word for what has a single name, and `many`
    /// for several.
    pub fn put_what(&mut self, count: u64, one: &str, many: &str) {
        let (front, thing, back) = match count {
            0 => ("there are no ", many, ""),
            1 => ("the ", one, " is "),
            _ => ("the ", many, " are "),
        };
        self.put(front);
        self.put(thing);
        self.put(back);
    }

    /// Puts name k of so many, counted from 0, as in `a, b and c`. A long list is cut.
    pub fn put_name(&mut self, k: u64, count: u64, name: &str) {
        if self.has_joint(k, count) {
            self.put_short(name);
        }
    }

    /// Puts mark k of so many in the same way.
    pub fn put_marked(&mut self, k: u64, count: u64, mark: u8) {
        if self.has_joint(k, count) {
            self.put_mark(mark);
        }
    }

    // Puts what is before name k of so many, or what ends a list that is cut. Whether the name is to follow.
    fn has_joint(&mut self, k: u64, count: u64) -> bool {
        if k == MOST_NAMED {
            self.put(" and more");
        } else if k < MOST_NAMED {
            self.put(joint(k, count));
        }
        k < MOST_NAMED
    }
}

// What is before name k of a list.
fn joint(k: u64, count: u64) -> &'static str {
    if k == 0 {
        ""
    } else if k.saturating_add(1) == count {
        " and "
    } else {
        ", "
    }
}
