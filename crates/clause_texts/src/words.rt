//! Reading the words of a line of a proof by clauses.

ghost use Rattle.std.specs.Prelude.{◌≡◌, ◌≤◌, codes, length, option_map};
ghost use Rattle.std.specs.List.{position_or_len};
ghost use Rattle.line_words.specs.Views.{texts};
ghost use Rattle.line_words.specs.Words.{is_word};
ghost use Rattle.clause_texts.specs.Step.Reading.{basis_in, difference_in, either_in, first_number, lettered_in, parted, step_in, target_in, weight_in};

use certificate::edge_in;
use edge_clauses::{Basis, WalkStep};
use event_graph::Edge;
use itv_base::{EventId, split_digits, strip};
use line_words::{long_in, short_in};

/// The first word as a number of 32 bits, and the other words.
pub fn first_number<'a, 'b>(words: &'b [&'a str]) -> Option<(u32, &'b [&'a str])>
    ensures { option_map (λ p. (p.0, texts p.1.now)) result ≡ first_number (texts words.now) }
{
    match words {
        [word, rest @ ..] => Some((short_in(word)?, rest)),
        _ => None,
    }
}

/// The words before the first word `keep`, and the words after it.
pub fn parted<'a, 'b>(words: &'b [&'a str]) -> Option<(&'b [&'a str], &'b [&'a str])>
    ensures { option_map (λ p. (texts p.0.now, texts p.1.now)) result ≡ parted (codes "keep") (texts words.now) }
{
    let place = place_of(words, "keep");
    if place == words.len() {
        return None;
    }
    Some((&words[..place], &words[place + 1..]))
}

// How many words stand before the first word that is this one.
fn place_of(words: &[&str], key: &str) -> usize
    ensures place { result ≡ position_or_len (λ word. is_word word.now key.now) words.now }
    ensures within { result ≤ length words.now }
{
    words.iter().take_while(|word| **word != key).count()
}

/// A step: the place of its edge, and where its clause comes from.
#[tactic(auto, unfolding(crate::specs::Step::Reading::step_in))]
pub fn step_in(word: &str) -> Option<WalkStep>
    ensures { result ≡ step_in word.now }
{
    let (digits, rest) = split_digits(word);
    let through = short_in(digits)?;
    let basis = basis_in(strip(rest, "/")?)?;
    Some(WalkStep { basis, through })
}

/// Where a clause comes from.
#[tactic(auto, unfolding(crate::specs::Step::Reading::basis_in))]
pub fn basis_in(word: &str) -> Option<Basis>
    ensures { result ≡ basis_in word.now }
{
    if let Some(edge) = edge_in(word) {
        return Some(Basis::ByEdge(edge));
    }
    if let Some(edge) = either_in(word) {
        return Some(Basis::Either(edge));
    }
    if let Some(constraint) = lettered_in("C", word) {
        return Some(Basis::ByChoice(constraint));
    }
    Some(Basis::ByKept(lettered_in("K", word)?))
}

// An edge of which either it or its opposite is met.
fn either_in(word: &str) -> Option<Edge>
    ensures { result ≡ either_in word.now }
{
    difference_in(strip(word, "E")?)
}

// A number of 32 bits after a letter.
fn lettered_in(letter: &str, word: &str) -> Option<u32>
    ensures { result ≡ lettered_in letter.now word.now }
{
    short_in(strip(word, letter)?)
}

/// An edge between two events.
#[tactic(auto, unfolding(crate::specs::Step::Reading::difference_in))]
pub fn difference_in(word: &str) -> Option<Edge>
    ensures { result ≡ difference_in word.now }
{
    let (digits, rest) = split_digits(word);
    let from = short_in(digits)?;
    target_in(from, strip(rest, ">")?)
}

// An edge from an event, read from the event that it leads to and its weight.
fn target_in(from: u32, word: &str) -> Option<Edge>
    ensures { result ≡ target_in from word.now }
{
    let (digits, rest) = split_digits(word);
    let to = short_in(digits)?;
    weight_in(from, to, strip(rest, ":")?)
}

// An edge between these events, read from its weight.
fn weight_in(from: u32, to: u32, word: &str) -> Option<Edge>
    ensures { result ≡ weight_in from to word.now }
{
    let weight = long_in(word)?;
    Some(Edge {
        from: EventId(from),
        to: EventId(to),
        weight,
    })
}
