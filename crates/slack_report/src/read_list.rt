//! Reading the words of a line after its first one.

ghost use Rattle.std.specs.Prelude.{◌≡◌, ◌≤◌, IfOk, codes, drop, length, option_map};
ghost use Rattle.itv_base.specs.Names.{name_view};
ghost use Rattle.itv_base.specs.Numerals.{number_text};
ghost use Rattle.line_words.specs.Numbers.{long_in};
ghost use Rattle.line_words.specs.Views.{texts};
ghost use Rattle.line_words.specs.Words.{behind_word, is_word, keyed, many};
ghost use Rattle.slack_report.specs.Items.{owned_name};
ghost use Rattle.slack_report.specs.Reading.{ask_in, bound_in, demand_in, fail_in, flags_in, found_in, limit_in, lone_bound, lone_verdict, row_in, times_in, verdict_in};
ghost use Rattle.slack_report.specs.Step.Cuts.{stands_first};

use crate::owned::OwnedName;
use crate::read_word::{name_in, range_in};
use itoa::Buffer;
use itv_base::{EventName, NoMemory, RowKind, Text, number_text};
use line_words::{behind_word, long_in, open_in, two_words};
use requirements::{Bound, Verdict};
use std::alloc::Global;

/// A number at each word, or none if a word is no number.
pub fn longs_in(alloc: Global, words: &[&str]) -> Result<Option<Vec<i64>>, NoMemory>
    ensures { IfOk result (λ o. option_map (λ v. v.items) o ≡ many long_in (texts words.now)) }
{
    let mut list = Vec::new(alloc);
    for word in words {
        let Some(value) = long_in(word) else {
            return Ok(None);
        };
        list.push(value)?;
    }
    Ok(Some(list))
}

/// A number for each event.
pub fn times_in(alloc: Global, count: u32, words: &[&str]) -> Result<Option<Vec<i64>>, NoMemory>
    ensures { IfOk result (λ o. option_map (λ v. v.items) o ≡ times_in count (texts words.now)) }
{
    if words.len() != count as usize {
        return Ok(None);
    }
    longs_in(alloc, words)
}

// Whether a word is the text of a number.
fn is_number(word: &str, number: u32) -> bool
    ensures { result ≡ is_word word.now (number_text number) }
{
    let mut digits = Buffer::new();
    word == number_text(u64::from(number), &mut digits)
}

/// The words after the first one, if the first one is the text of a number.
pub fn behind_number<'a, 'b>(words: &'b [&'a str], number: u32) -> Option<&'b [&'a str]>
    ensures { option_map (λ w. texts w.now) result ≡ behind_word (number_text number) (texts words.now) }
{
    let mut digits = Buffer::new();
    behind_word(words, number_text(u64::from(number), &mut digits))
}

// Whether the word at a place is the text of a number.
fn stands_at(words: &[&str], at: usize, number: u32) -> bool
    requires { at ≤ length words.now }
    ensures { result ≡ stands_first (number_text number) (texts (drop at words.now)) }
{
    at < words.len() && is_number(words[at], number)
}

/// For each of `count` events whether it is in a set. The words are the numbers of the events in the set, in their
/// order. None if a word is left.
pub fn flags_in(alloc: Global, count: u32, words: &[&str]) -> Result<Option<Vec<bool>>, NoMemory>
    ensures { IfOk result (λ o. option_map (λ v. v.items) o ≡ flags_in count 0 (texts words.now)) }
{
    let mut set = Vec::new(alloc);
    let mut at = 0;
    for number in 0..count {
        let is_in = stands_at(words, at, number);
        set.push(is_in)?;
        if is_in {
            at += 1;
        }
    }
    if at < words.len() {
        return Ok(None);
    }
    Ok(Some(set))
}

// A number, or the word `unbounded`.
fn lone_bound(word: &str) -> Option<Bound>
    ensures { result ≡ lone_bound word.now }
{
    match long_in(word) {
        Some(value) => Some(Bound::Closed(value)),
        None => (word == "unbounded").then_some(Bound::Unbounded),
    }
}

// The word `within` and a limit, with nothing attained.
fn limit_in(word: &str, limit: &str) -> Option<Bound>
    ensures { result ≡ limit_in word.now limit.now }
{
    if word != "within" {
        return None;
    }
    Some(Bound::Within {
        limit: open_in(limit)?,
        attained: None,
    })
}

// The word `within` and a limit, then the word `found` and what was attained.
fn found_in(word: &str, limit: &str, mid: &str, found: &str) -> Option<Bound>
    ensures { result ≡ found_in word.now limit.now mid.now found.now }
{
    let are_keys = word == "within" && mid == "found";
    if !are_keys {
        return None;
    }
    let limit = open_in(limit)?;
    let found = long_in(found)?;
    Some(Bound::Within {
        limit,
        attained: Some(found),
    })
}

/// A bound.
#[tactic(auto, unfolding(crate::specs::Reading::bound_in))]
pub fn bound_in(words: &[&str]) -> Option<Bound>
    ensures { result ≡ bound_in (texts words.now) }
{
    match words {
        [word] => lone_bound(word),
        [word, limit] => limit_in(word, limit),
        [word, limit, mid, found] => found_in(word, limit, mid, found),
        _ => None,
    }
}

fn lone_verdict(word: &str) -> Option<Verdict>
    ensures { result ≡ lone_verdict word.now }
{
    match word {
        "pass" => Some(Verdict::Pass),
        "undecided" => Some(Verdict::Undecided),
        _ => None,
    }
}

fn fail_in(word: &str, side: &str) -> Option<Verdict>
    ensures { result ≡ fail_in word.now side.now }
{
    if word != "fail" {
        return None;
    }
    match side {
        "high" => Some(Verdict::FailHigh),
        "low" => Some(Verdict::FailLow),
        _ => None,
    }
}

/// A verdict.
#[tactic(auto, unfolding(crate::specs::Reading::verdict_in))]
pub fn verdict_in(words: &[&str]) -> Option<Verdict>
    ensures { result ≡ verdict_in (texts words.now) }
{
    match words {
        [word] => lone_verdict(word),
        [word, side] => fail_in(word, side),
        _ => None,
    }
}

// Two names after `ask`.
fn ask_in<'a>(words: &[&'a str]) -> Option<(RowKind, EventName<'a>, EventName<'a>)>
    ensures { option_map (λ x. (x.0, name_view x.1, name_view x.2)) result ≡ keyed (codes "ask") ask_in (texts words.now) }
{
    let (from, to) = two_words(behind_word(words, "ask")?)?;
    Some((RowKind::Ask, name_in(from)?, name_in(to)?))
}

// Two names and a range after `req`.
fn demand_in<'a>(words: &[&'a str]) -> Option<(RowKind, EventName<'a>, EventName<'a>)>
    ensures { option_map (λ x. (x.0, name_view x.1, name_view x.2)) result ≡ keyed (codes "req") demand_in (texts words.now) }
{
    let [from, to, range] = behind_word(words, "req")? else {
        return None;
    };
    let from = name_in(from)?;
    let to = name_in(to)?;
    Some((RowKind::Req(range_in(range)?), from, to))
}

/// What a row asks.
#[tactic(auto, unfolding(crate::specs::Reading::row_in))]
pub fn row_in<'a>(words: &[&'a str]) -> Option<(RowKind, EventName<'a>, EventName<'a>)>
    ensures { option_map (λ x. (x.0, name_view x.1, name_view x.2)) result ≡ row_in (texts words.now) }
{
    match ask_in(words) {
        Some(asked) => Some(asked),
        None => demand_in(words),
    }
}

/// A copy of a name.
pub fn copy_name(alloc: Global, name: EventName<'_>) -> Result<OwnedName, NoMemory>
    ensures { IfOk result (λ n. owned_name n ≡ name_view name.entry) }
{
    Ok(OwnedName {
        part: Text::from_text(alloc, name.part)?,
        mark: name.mark,
        cycle: name.cycle,
    })
}
