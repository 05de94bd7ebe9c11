//! What is printed of a case.

use std::alloc::Global;
use std::fmt::{Display, Write};

/// A text that grows piece by piece. Once a row is refused, or memory runs out, nothing more is put until the row has ended. So a call asks once,
/// at its end, and not after each piece.
#[derive(Drop)]
pub struct Out {
    text: String,
    is_unfit: bool,
}

impl Out {
    /// An empty text.
    pub fn new(alloc: Global) -> Out {
        Out {
            text: String::new(alloc),
            is_unfit: false,
        }
    }

    /// The whole text.
    pub fn as_str(&self) -> &str {
        self.text.as_str()
    }

    /// Refuses the row: it does not have the form that its verb wants, or memory ran out.
    pub fn refuse(&mut self) {
        self.is_unfit = true;
    }

    /// Whether the row is refused.
    pub fn is_unfit(&self) -> bool {
        self.is_unfit
    }

    /// Puts the word for a row that was refused, if it was. What follows is put again.
    pub fn end_row(&mut self) {
        if self.is_unfit {
            self.is_unfit = false;
            self.put("unfit");
        }
    }

    /// Puts a text.
    pub fn put(&mut self, text: &str) {
        if !self.is_unfit {
            self.is_unfit = self.text.push_str(text).is_err();
        }
    }

    /// Puts a character.
    pub fn put_character(&mut self, character: char) {
        if !self.is_unfit {
            self.is_unfit = self.text.push(character).is_err();
        }
    }

    /// Puts a number.
    pub fn put_number(&mut self, number: i64) {
        if !self.is_unfit {
            self.is_unfit = write!(self.text, "{number}").is_err();
        }
    }

    /// Puts how many there are, or another number that is not negative.
    pub fn put_count(&mut self, count: u64) {
        if !self.is_unfit {
            self.is_unfit = write!(self.text, "{count}").is_err();
        }
    }

    /// Puts a fault or another value in its own words.
    pub fn put_shown<T: Display>(&mut self, shown: &T) {
        if !self.is_unfit {
            self.is_unfit = write!(self.text, "{}", *shown).is_err();
        }
    }

    /// Puts whether something holds, as `true` or `false`.
    pub fn put_whether(&mut self, holds: bool) {
        self.put(if holds { "true" } else { "false" });
    }

    /// Puts an end of a range, or a star if it is open.
    pub fn put_end(&mut self, end: Option<i64>) {
        match end {
            Some(value) => self.put_number(value),
            None => self.put("*"),
        }
    }
}
