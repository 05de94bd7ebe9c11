//! Reading a line of a proof.

ghost use Rattle.std.specs.Prelude.{◌≡◌, ◌-◌, ◌^◌, codes, IfOk, IsErrOf, option_map};
ghost use Rattle.event_graph.specs.Proof.{ProofLine};
ghost use Rattle.line_words.specs.Numbers.{number_in};
ghost use Rattle.line_words.specs.Views.{texts};
ghost use Rattle.line_words.specs.Words.{keyed, many, one};
ghost use Rattle.certificate.specs.Answer.{IsReadAs};
ghost use Rattle.certificate.specs.Step.Answer.{IsLineRead};
ghost use Rattle.certificate.specs.Owned.{line_view};
ghost use Rattle.certificate.specs.Reading.{cause_in, edge_in, proof_in, side_in};
ghost use Rattle.certificate.specs.Step.Reading.{line_in};
ghost use Rattle.certificate.specs.Text.{Spells};

use crate::fault::LineFault;
use crate::line::OwnedLine;
use itv_base::{EdgeName, NoMemory, Side, split_digits, strip};
use line_words::{behind_word, only_word, short_in, split_words};
use std::alloc::Global;

fn side_in(word: &str) -> Option<Side>
    ensures { result ≡ side_in word.now }
{
    if word == "u" {
        return Some(Side::Upper);
    }
    (word == "l").then_some(Side::Lower)
}

// A cause and a side.
fn cause_in(constraint: u32, word: &str) -> Option<EdgeName>
    ensures { result ≡ cause_in constraint word.now }
{
    let (digits, rest) = split_digits(word);
    let cause = short_in(digits)?;
    let side = side_in(rest)?;
    Some(EdgeName {
        constraint,
        cause,
        side,
    })
}

/// The edge that a word names, if it names one.
#[tactic(auto, unfolding(crate::specs::Reading::edge_in))]
pub fn edge_in(word: &str) -> Option<EdgeName>
    ensures { result ≡ edge_in word.now }
{
    let (digits, rest) = split_digits(word);
    let constraint = short_in(digits)?;
    cause_in(constraint, strip(rest, ".")?)
}

// An edge at each word.
fn edges_in(alloc: Global, words: &[&str]) -> Result<Option<Vec<EdgeName>>, NoMemory>
    ensures { IfOk result (λ o. option_map (λ v. v.items) o ≡ many edge_in (texts words.now)) }
{
    let mut list = Vec::new(alloc);
    for word in words {
        let Some(edge) = edge_in(word) else {
            return Ok(None);
        };
        list.push(edge)?;
    }
    Ok(Some(list))
}

// The constraint by which a line splits a case.
fn split_in(words: &[&str]) -> Option<u32>
    ensures { result ≡ keyed (codes "split") (one (number_in (2 ^ 32 - 1))) (texts words.now) }
{
    let rest = behind_word(words, "split")?;
    short_in(only_word(rest)?)
}

// The edges of a path or a loop.
fn edges_behind(alloc: Global, words: &[&str], key: &str) -> Result<Option<Vec<EdgeName>>, NoMemory>
    ensures { IfOk result (λ o. option_map (λ v. v.items) o ≡ keyed key.now (many edge_in) (texts words.now)) }
{
    match behind_word(words, key) {
        None => Ok(None),
        Some(rest) => edges_in(alloc, rest),
    }
}

/// The line of a proof with these words, if there is one.
#[tactic(auto, unfolding(crate::specs::Reading::proof_in))]
pub fn proof_in(alloc: Global, words: &[&str]) -> Result<Option<OwnedLine>, NoMemory>
    ensures line { IfOk result (λ o. option_map (λ l. line_view l) o ≡ proof_in (texts words.now)) }
{
    if let Some(constraint) = split_in(words) {
        return Ok(Some(OwnedLine::Split(constraint)));
    }
    if let Some(edges) = edges_behind(alloc, words, "path")? {
        return Ok(Some(OwnedLine::Path(edges)));
    }
    Ok(edges_behind(alloc, words, "loop")?.map(OwnedLine::Loop))
}

fn read_words(alloc: Global, text: &str) -> Result<OwnedLine, LineFault>
    ensures { IsLineRead result (line_in text.now) }
{
    let words = split_words(alloc, text)?;
    match proof_in(alloc, &words)? {
        Some(line) => Ok(line),
        None => Err(LineFault::BadLine),
    }
}

// The line with these bytes, which need not be text.
fn read_owned(alloc: Global, text: &[u8]) -> Result<OwnedLine, LineFault>
    ensures { IsLineRead result (line_in text.now) }
{
    match str::from_utf8(text) {
        Ok(text) => read_words(alloc, text),
        Err(_) => Err(LineFault::BadLine),
    }
}

/// The line of a proof with this text, which has no line end. Lack of memory is the only other fault.
pub fn read_line(alloc: Global, text: &[u8]) -> Result<OwnedLine, LineFault>
    // A line that is read has this text.
    ensures ok { IfOk result (λ line. Spells text.now (line_view line)) }
    // The text of a line is read as this line, unless memory runs out.
    ensures only { (line : ProofLine) → Spells text.now line → IsReadAs result line }
    // A text that is called bad is not the text of a line.
    ensures bad { IsErrOf result LineFault.BadLine → (line : ProofLine) → Spells text.now line → ⊥ }
{
    read_owned(alloc, text)
}
