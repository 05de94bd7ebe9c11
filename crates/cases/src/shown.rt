//! What a run shows of the text that it writes.

use itv_base::NoMemory;
use std::alloc::Global;

// A line that is open: its number, from 1, and how many of its words are shown.
#[derive(Clone, Copy)]
struct OpenLine {
    number: u32,
    words: u32,
}

/// Which lines of a text are shown, and which of them up to a word. If fronts are given, only lines that begin with one of them are counted, from 1.
#[derive(Drop)]
pub struct Shown {
    first: u32,
    last: u32,
    fronts: Vec<String>,
    open: Vec<OpenLine>,
    counted: Vec<String>,
}

impl Shown {
    /// All lines, whole.
    pub fn new(alloc: Global) -> Shown {
        Shown {
            first: 0,
            last: u32::MAX,
            fronts: Vec::new(alloc),
            open: Vec::new(alloc),
            counted: Vec::new(alloc),
        }
    }

    /// Shows the lines with the numbers from `first` to `last` alone.
    pub fn keep_lines(&mut self, first: u32, last: u32) {
        self.first = first;
        self.last = last;
    }

    /// Counts and shows only the lines that begin with this text, or with another that was given so.
    pub fn keep_front(&mut self, alloc: Global, front: &str) -> Result<(), NoMemory> {
        self.fronts.push(String::from_str(alloc, front)?)?;
        Ok(())
    }

    /// Counts how often this text is written.
    pub fn count(&mut self, alloc: Global, part: &str) -> Result<(), NoMemory> {
        self.counted.push(String::from_str(alloc, part)?)?;
        Ok(())
    }

    /// Shows a line up to one of its words, and `?` for the words after it.
    pub fn open_line(&mut self, number: u32, words: u32) -> Result<(), NoMemory> {
        self.open.push(OpenLine { number, words })?;
        Ok(())
    }

    /// Puts the lines that are shown, each after a bar or another text.
    pub fn put_lines(&self, text: &str, bar: &str, out: &mut String) -> Result<(), NoMemory> {
        let mut number = 0u32;
        for line in text.lines() {
            if self.is_counted(line) {
                number = number.saturating_add(1);
                if self.first <= number && number <= self.last {
                    out.push_str(bar)?;
                    self.put_line(number, line, out)?;
                }
            }
        }
        Ok(())
    }

    // Whether a line begins with one of the fronts, or there are none.
    fn is_counted(&self, line: &str) -> bool {
        for front in &self.fronts {
            if line.starts_with(front.as_str()) {
                return true;
            }
        }
        self.fronts.is_empty()
    }

    // Puts a line, or its first words.
    fn put_line(&self, number: u32, line: &str, out: &mut String) -> Result<(), NoMemory> {
        for open in &self.open {
            if open.number == number {
                out.push_str(front_of(line, open.words))?;
                out.push_str(" ?\n")?;
                return Ok(());
            }
        }
        out.push_str(line)?;
        out.push_str("\n")?;
        Ok(())
    }

    /// Puts how often each text that is counted stands in a text.
    pub fn put_counts(&self, text: &str, out: &mut String) -> Result<(), NoMemory> {
        for part in &self.counted {
            let count = text.split(part.as_str()).count().saturating_sub(1);
            writeln!(out, "count {count} {part}")?;
        }
        Ok(())
    }
}

// The front of a line that has so many words.
fn front_of(line: &str, words: u32) -> &str {
    let mut left = words;
    for (place, letter) in line.char_indices() {
        if letter == ' ' {
            left = left.saturating_sub(1);
            if left == 0 {
                return line.get(..place).unwrap_or(line);
            }
        }
    }
    line
}
