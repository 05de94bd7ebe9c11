//! Adding words after a text that is gathered in memory.

ghost use Rattle.std.specs.Prelude.{◌≡◌, ◌++◌, OnOk, codes};
ghost use Rattle.std.specs.List.{flat_map};
ghost use Rattle.itv_base.specs.Numerals.{end_text, number_text, signed_text};
ghost use Rattle.line_words.specs.Lines.{spaced};
ghost use Rattle.slack_report.specs.Entry.{ending};
ghost use Rattle.slack_report.specs.Text.{bound_words, entry_text, range_word, verdict_words};

use crate::words::EndWord;
use itoa::Buffer;
use itv_base::{NoMemory, Range, end_text, number_text, signed_text};
use requirements::{Bound, Verdict};

/// Adds a piece after a text.
pub fn add_piece(text: &mut Vec<u8>, piece: &[u8]) -> Result<(), NoMemory>
    ensures added { OnOk result (text.new.items ≡ text.old.items ++ piece.now) }
{
    text.extend_from_slice(piece)?;
    Ok(())
}

/// Adds a space and a word.
pub fn add_spaced(text: &mut Vec<u8>, word: &[u8]) -> Result<(), NoMemory>
    ensures added { OnOk result (text.new.items ≡ text.old.items ++ spaced word.now) }
{
    add_piece(text, b" ")?;
    add_piece(text, word)
}

/// Adds a space and a number.
pub fn add_number(text: &mut Vec<u8>, number: u64) -> Result<(), NoMemory>
    ensures added { OnOk result (text.new.items ≡ text.old.items ++ spaced (number_text number)) }
{
    let mut digits = Buffer::new();
    add_spaced(text, number_text(number, &mut digits).as_bytes())
}

/// Adds a space and a number that may be below 0.
pub fn add_signed(text: &mut Vec<u8>, number: i64) -> Result<(), NoMemory>
    ensures { OnOk result (text.new.items ≡ text.old.items ++ spaced (signed_text number)) }
{
    let mut digits = Buffer::new();
    add_spaced(text, signed_text(number, &mut digits).as_bytes())
}

// Adds a space and a number, or a star for none.
fn add_end(text: &mut Vec<u8>, end: Option<i64>) -> Result<(), NoMemory>
    ensures { OnOk result (text.new.items ≡ text.old.items ++ spaced (end_text end)) }
{
    let mut digits = Buffer::new();
    add_spaced(text, end_text(end, &mut digits).as_bytes())
}

// Adds how far an open bound may reach.
fn add_within(text: &mut Vec<u8>, limit: Option<i64>) -> Result<(), NoMemory>
    ensures { OnOk result (text.new.items ≡ text.old.items ++ (spaced (codes "within") ++ spaced (end_text limit))) }
{
    add_spaced(text, b"within")?;
    add_end(text, limit)
}

// Adds what was attained of an open bound.
fn add_found(text: &mut Vec<u8>, found: i64) -> Result<(), NoMemory>
    ensures { OnOk result (text.new.items ≡ text.old.items ++ (spaced (codes "found") ++ spaced (signed_text found))) }
{
    add_spaced(text, b"found")?;
    add_signed(text, found)
}

/// Adds a space and a word for each word of a bound.
pub fn add_bound(text: &mut Vec<u8>, value: Bound) -> Result<(), NoMemory>
    ensures added { OnOk result (text.new.items ≡ text.old.items ++ flat_map spaced (bound_words value)) }
{
    match value {
        Bound::Closed(number) => add_signed(text, number),
        Bound::Unbounded => add_spaced(text, b"unbounded"),
        Bound::Within {
            limit,
            attained: None,
        } => add_within(text, limit),
        Bound::Within {
            limit,
            attained: Some(found),
        } => {
            add_within(text, limit)?;
            add_found(text, found)
        }
    }
}

/// Adds a space and a word for each word of a verdict.
pub fn add_verdict(text: &mut Vec<u8>, word: Verdict) -> Result<(), NoMemory>
    ensures added { OnOk result (text.new.items ≡ text.old.items ++ flat_map spaced (verdict_words word)) }
{
    match word {
        Verdict::Pass => add_spaced(text, b"pass"),
        Verdict::FailHigh => add_piece(text, b" fail high"),
        Verdict::FailLow => add_piece(text, b" fail low"),
        Verdict::Undecided => add_spaced(text, b"undecided"),
    }
}

/// Adds a space and a range.
pub fn add_range(text: &mut Vec<u8>, range: Range) -> Result<(), NoMemory>
    ensures added { OnOk result (text.new.items ≡ text.old.items ++ spaced (range_word range)) }
{
    add_piece(text, b" [")?;
    add_end_of(text, range.low())?;
    add_piece(text, b",")?;
    add_end_of(text, range.high())?;
    add_piece(text, b"]")
}

fn add_end_of(text: &mut Vec<u8>, end: Option<i64>) -> Result<(), NoMemory>
    ensures { OnOk result (text.new.items ≡ text.old.items ++ end_text end) }
{
    let mut digits = Buffer::new();
    add_piece(text, end_text(end, &mut digits).as_bytes())
}

/// Adds the line of the word at the end.
#[tactic(auto, unfolding(crate::specs::Text::words_of))]
pub fn add_ending(text: &mut Vec<u8>, word: EndWord) -> Result<(), NoMemory>
    ensures added { OnOk result (text.new.items ≡ text.old.items ++ entry_text (ending word)) }
{
    match word {
        EndWord::Pass => add_piece(text, b"end pass\n"),
        EndWord::Fail => add_piece(text, b"end fail\n"),
        EndWord::Inconsistent => add_piece(text, b"end inconsistent\n"),
        EndWord::Undecided => add_piece(text, b"end undecided\n"),
    }
}
