//! Adding words after a text that is gathered.

ghost use Rattle.std.specs.Prelude.{◌≡◌, ◌++◌, OnOk};
ghost use Rattle.std.specs.List.{flat_map};
ghost use Rattle.itv_base.specs.Numerals.{number_text};
ghost use Rattle.line_words.specs.Lines.{spaced};
ghost use Rattle.drawn_numbers.specs.Numbers.{drawn_number_text};
ghost use Rattle.job_why.specs.Text.{some_word};

use drawn_numbers::DrawnNumber;
use itv_base::NoMemory;
use slack_report::{add_number, add_spaced};

/// Adds a space and a word, if it is not empty.
pub fn add_some(text: &mut Vec<u8>, word: &str) -> Result<(), NoMemory>
    ensures added { OnOk result (text.new.items ≡ text.old.items ++ flat_map spaced (some_word word.now)) }
{
    if word.is_empty() {
        return Ok(());
    }
    add_spaced(text, word.as_bytes())
}

/// Adds a space and what a number is called.
pub fn add_drawn(text: &mut Vec<u8>, number: &DrawnNumber) -> Result<(), NoMemory>
    ensures added { OnOk result (text.new.items ≡ text.old.items ++ spaced (drawn_number_text number.now)) }
{
    match number {
        DrawnNumber::Edge { part, edge } => {
            add_spaced(text, part.as_text().as_bytes())?;
            add_called(text, b"edge", *edge)
        }
        DrawnNumber::Net(net) => add_called(text, b"net", *net),
        DrawnNumber::Wire(wire) => add_called(text, b"wire", *wire),
    }
}

// Adds a space, a word and a number after it.
fn add_called(text: &mut Vec<u8>, word: &[u8], number: u64) -> Result<(), NoMemory>
    ensures { OnOk result (text.new.items ≡ text.old.items ++ (spaced word.now ++ spaced (number_text number))) }
{
    add_spaced(text, word)?;
    add_number(text, number)
}
