//! Reading a line of a proof by clauses.

ghost use Rattle.std.specs.Prelude.{◌≡◌, IfOk, IsErrOf, codes, option_map};
ghost use Rattle.line_words.specs.Views.{texts};
ghost use Rattle.line_words.specs.Words.{many};
ghost use Rattle.edge_clauses.specs.Lines.{ClauseLine};
ghost use Rattle.edge_clauses.specs.Proofs.{line_of};
ghost use Rattle.clause_texts.specs.Answer.{IsReadAs};
ghost use Rattle.clause_texts.specs.Step.Answer.{IsClauseRead};
ghost use Rattle.clause_texts.specs.Step.Reading.{assume_in, bound_in, clause_in, close_in, difference_in, fall_in, know_in, line_in, loop_in, many_and_many, rise_in, step_in};
ghost use Rattle.clause_texts.specs.Text.{SpellsClause};

use crate::words::{basis_in, difference_in, first_number, parted, step_in};
use certificate::LineFault;
use edge_clauses::{EventBound, StoredLine, WalkStep};
use event_graph::Edge;
use itv_base::{EventId, NoMemory};
use line_words::{behind_word, long_in, split_words, two_words};
use std::alloc::Global;

/// Reads a line of a proof, without its line end. The faults are `BadLine`, for any other text, and `NoMemory`.
pub fn read_clause_line(alloc: Global, text: &[u8]) -> Result<StoredLine, LineFault>
    // A line that is read has this text.
    ensures ok { IfOk result (λ line. SpellsClause text.now (line_of line)) }
    // The text of a line is read as this line, unless memory runs out.
    ensures only { (line : ClauseLine) → SpellsClause text.now line → IsReadAs result line }
    // A text that is called bad is not the text of a line.
    ensures bad { IsErrOf result LineFault.BadLine → (line : ClauseLine) → SpellsClause text.now line → ⊥ }
{
    read_bytes(alloc, text)
}

// The line with these bytes, which need not be text.
fn read_bytes(alloc: Global, text: &[u8]) -> Result<StoredLine, LineFault>
    ensures { IsClauseRead result (line_in text.now) }
{
    match str::from_utf8(text) {
        Ok(text) => read_words(alloc, text),
        Err(_) => Err(LineFault::BadLine),
    }
}

fn read_words(alloc: Global, text: &str) -> Result<StoredLine, LineFault>
    ensures { IsClauseRead result (line_in text.now) }
{
    let words = split_words(alloc, text)?;
    match clause_in(alloc, &words)? {
        Some(line) => Ok(line),
        None => Err(LineFault::BadLine),
    }
}

// The line of a proof with these words, if there is one.
#[tactic(auto, unfolding(crate::specs::Step::Reading::clause_in))]
fn clause_in(alloc: Global, words: &[&str]) -> Result<Option<StoredLine>, NoMemory>
    ensures { IfOk result (λ o. option_map (λ l. line_of l) o ≡ clause_in (texts words.now)) }
{
    if let Some(line) = fall_in(words) {
        return Ok(Some(line));
    }
    if let Some(line) = rise_in(words) {
        return Ok(Some(line));
    }
    if let Some(line) = know_in(words) {
        return Ok(Some(line));
    }
    if let Some(line) = loop_in(alloc, words)? {
        return Ok(Some(line));
    }
    if let Some(line) = assume_in(alloc, words)? {
        return Ok(Some(line));
    }
    Ok(close_in(words))
}

fn fall_in(words: &[&str]) -> Option<StoredLine>
    ensures { option_map (λ l. line_of l) result ≡ fall_in (texts words.now) }
{
    Some(StoredLine::Fall(bound_in(behind_word(words, "fall")?)?))
}

fn rise_in(words: &[&str]) -> Option<StoredLine>
    ensures { option_map (λ l. line_of l) result ≡ rise_in (texts words.now) }
{
    Some(StoredLine::Rise(bound_in(behind_word(words, "rise")?)?))
}

// A bound of an event: the event, the value and where the clause comes from.
fn bound_in(words: &[&str]) -> Option<EventBound>
    ensures { result ≡ bound_in (texts words.now) }
{
    let (event, others) = first_number(words)?;
    let (value, basis) = two_words(others)?;
    let value = long_in(value)?;
    let basis = basis_in(basis)?;
    Some(EventBound {
        event: EventId(event),
        value,
        basis,
    })
}

fn know_in(words: &[&str]) -> Option<StoredLine>
    ensures { option_map (λ l. line_of l) result ≡ know_in (texts words.now) }
{
    let (edge, basis) = two_words(behind_word(words, "know")?)?;
    let edge = difference_in(edge)?;
    Some(StoredLine::Know(edge, basis_in(basis)?))
}

fn loop_in(alloc: Global, words: &[&str]) -> Result<Option<StoredLine>, NoMemory>
    ensures { IfOk result (λ o. option_map (λ l. line_of l) o ≡ loop_in (texts words.now)) }
{
    let Some(rest) = behind_word(words, "loop") else {
        return Ok(None);
    };
    let Some((event, others)) = first_number(rest) else {
        return Ok(None);
    };
    match kept_in(alloc, others)? {
        None => Ok(None),
        Some((steps, clause)) => Ok(Some(StoredLine::Loop(EventId(event), steps, clause))),
    }
}

// The steps of a loop, and the clause that is kept.
fn kept_in(alloc: Global, words: &[&str]) -> Result<Option<(Vec<WalkStep>, Vec<Edge>)>, NoMemory>
    ensures { IfOk result (λ o. option_map (λ p. (p.0.items, p.1.items)) o
        ≡ many_and_many step_in (codes "keep") difference_in (texts words.now)) }
{
    let Some((before, after)) = parted(words) else {
        return Ok(None);
    };
    let Some(steps) = steps_in(alloc, before)? else {
        return Ok(None);
    };
    match differences_in(alloc, after)? {
        None => Ok(None),
        Some(clause) => Ok(Some((steps, clause))),
    }
}

// A step for each word.
fn steps_in(alloc: Global, words: &[&str]) -> Result<Option<Vec<WalkStep>>, NoMemory>
    ensures { IfOk result (λ o. option_map (λ v. v.items) o ≡ many step_in (texts words.now)) }
{
    let mut list = Vec::new(alloc);
    for word in words {
        let Some(step) = step_in(word) else {
            return Ok(None);
        };
        list.push(step)?;
    }
    Ok(Some(list))
}

fn assume_in(alloc: Global, words: &[&str]) -> Result<Option<StoredLine>, NoMemory>
    ensures { IfOk result (λ o. option_map (λ l. line_of l) o ≡ assume_in (texts words.now)) }
{
    let Some(others) = behind_word(words, "assume") else {
        return Ok(None);
    };
    match differences_in(alloc, others)? {
        None => Ok(None),
        Some(edges) => Ok(Some(StoredLine::Assume(edges))),
    }
}

// An edge for each word.
fn differences_in(alloc: Global, words: &[&str]) -> Result<Option<Vec<Edge>>, NoMemory>
    ensures { IfOk result (λ o. option_map (λ v. v.items) o ≡ many difference_in (texts words.now)) }
{
    let mut list = Vec::new(alloc);
    for word in words {
        let Some(edge) = difference_in(word) else {
            return Ok(None);
        };
        list.push(edge)?;
    }
    Ok(Some(list))
}

fn close_in(words: &[&str]) -> Option<StoredLine>
    ensures { option_map (λ l. line_of l) result ≡ close_in (texts words.now) }
{
    if !behind_word(words, "close")?.is_empty() {
        return None;
    }
    Some(StoredLine::Close)
}
