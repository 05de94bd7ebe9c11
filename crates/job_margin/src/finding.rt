//! Finding how far the numbers of a drawing may be moved.

ghost use Rattle.std.specs.Prelude.{◌≡◌, ◌≤◌, ◌∷◌, ◌&&◌, [], IfOk, IfSome, is_some, replicate, true};
ghost use Rattle.std.specs.List.{AllZip};
ghost use Rattle.std.specs.Option.{option_eq};
ghost use Rattle.std.specs.Ordering.{int_eq};
ghost use Rattle.itv_base.specs.declared.limits.TheConstants.{MAX_BUDGET};
ghost use Rattle.moves.specs.Found.{IsSpanFound};
ghost use Rattle.moves.specs.Step.{lent};
ghost use Rattle.job_margin.specs.Margin.{IsNumberFound};
ghost use Rattle.job_margin.specs.Step.{AreFoundIf, AreFoundOf, IsBaseOf, EndsByOf, found_of, is_decided, numbers_in_seen, word_of};

use crate::number_found::NumberFound;
use drawn_networks::DrawnNetwork;
use drawn_numbers::DrawnNumber;
use extremes::{RunTurns, run_turns};
use itv_base::{NoMemory, Range};
use margins::{EndsFound, base_of, find_ends};
use moves::{NetFound, NumberSeen, SpanFound};
use probing::Probed;
use slack_report::EndWord;
use spans::find_span;
use std::alloc::Global;

/// What is found of a network as drawn, and of numbers: the word that the network would end with, and the margins of each number. Of numbers nothing is looked
/// for where no times satisfy the network, or where it was left open whether every requirement passes.
#[derive(Drop)]
pub struct MarginFound {
    pub word: EndWord,
    pub numbers: Vec<NumberFound>,
}

/// Finds how far numbers may be moved, each by itself or all as one. Each search closes at most `budget` cases, and takes at most a thousand turns for each.
/// All searches together take at most as many turns as a few of them that take all of theirs. Those after that close cases alone.
pub fn find_margins(
    alloc: Global,
    drawn: &DrawnNetwork,
    seen: &[NumberSeen],
    as_one: bool,
    budget: u64,
) -> Result<MarginFound, NoMemory>
    requires least { 1 ≤ budget }
    requires most { budget ≤ MAX_BUDGET }
    ensures ending { IfOk result (λ found. EndsByOf drawn.now budget seen.now as_one found.word found.numbers.items) }
{
    let mut turns = run_turns(budget);
    let base = base_of(alloc, drawn, budget, &mut turns)?;
    let numbers = numbers_by(alloc, drawn, seen, as_one, &base, budget, &mut turns)?;
    Ok(MarginFound {
        word: word_of(base.found),
        numbers,
    })
}

// The word that the network as drawn would end with.
fn word_of(base: NetFound) -> EndWord
    ensures { result ≡ word_of base }
{
    match base {
        NetFound::Passes => EndWord::Pass,
        NetFound::Breaks(_) => EndWord::Fail,
        NetFound::Inconsistent => EndWord::Inconsistent,
        NetFound::Open | NetFound::Spent => EndWord::Undecided,
    }
}

// What is found of the numbers, if it is looked for.
fn numbers_by(
    alloc: Global,
    drawn: &DrawnNetwork,
    seen: &[NumberSeen],
    as_one: bool,
    base: &Probed,
    budget: u64,
    turns: &mut RunTurns,
) -> Result<Vec<NumberFound>, NoMemory>
    requires base { IsBaseOf drawn.now budget base.now }
    ensures { IfOk result (λ found. AreFoundIf (is_decided base.now.found) drawn.now budget seen.now as_one found.items) }
{
    if !is_decided(base.found) {
        return Ok(Vec::new(alloc));
    }
    if as_one {
        as_one_found(alloc, drawn, seen, base, budget, turns)
    } else {
        each_found(alloc, drawn, seen, base, budget, turns)
    }
}

// Whether every requirement passes, or a row breaks.
fn is_decided(base: NetFound) -> bool
    ensures { result ≡ is_decided base }
{
    match base {
        NetFound::Passes | NetFound::Breaks(_) => true,
        NetFound::Inconsistent | NetFound::Open | NetFound::Spent => false,
    }
}

// ---- each number by itself

// What is found of each number.
fn each_found(
    alloc: Global,
    drawn: &DrawnNetwork,
    seen: &[NumberSeen],
    base: &Probed,
    budget: u64,
    turns: &mut RunTurns,
) -> Result<Vec<NumberFound>, NoMemory>
    requires base { IsBaseOf drawn.now budget base.now }
    requires decided { is_decided base.now.found ≡ true }
    ensures { IfOk result (λ found. AllZip (IsNumberFound drawn.now budget) seen.now found.items) }
{
    let ends = find_ends(alloc, drawn, seen, base, budget, turns)?;
    let mut found = Vec::new(alloc);
    for k in 0..seen.len() {
        let span = span_of(alloc, drawn, &seen[k], base, budget, turns)?;
        found.push(NumberFound {
            ends: ends[k],
            span,
        })?;
    }
    Ok(found)
}

// What is found of the values of a number, if its range has one value.
fn span_of(
    alloc: Global,
    drawn: &DrawnNetwork,
    seen: &NumberSeen,
    base: &Probed,
    budget: u64,
    turns: &mut RunTurns,
) -> Result<Option<SpanFound>, NoMemory>
    requires base { IsBaseOf drawn.now budget base.now }
    requires decided { is_decided base.now.found ≡ true }
    ensures span { IfOk result (λ span. IfSome span (λ s. IsSpanFound drawn.now (seen.now.number ∷ []) budget s.down s.up)) }
    ensures has_span { IfOk result (λ span. is_some span ≡ (is_some seen.now.range.low && option_eq int_eq seen.now.range.low seen.now.range.high)) }
{
    if !is_single(seen.range) {
        return Ok(None);
    }
    let span = find_span(alloc, drawn, &[&seen.number], base, budget, turns)?;
    Ok(Some(span))
}

// Whether a range has one value.
fn is_single(range: Range) -> bool
    ensures { result ≡ (is_some range.low && option_eq int_eq range.low range.high) }
{
    match (range.low(), range.high()) {
        (Some(low), Some(high)) => low == high,
        _ => false,
    }
}

// ---- all numbers as one

// What is found of numbers that move as one: for each the same, of their values.
fn as_one_found(
    alloc: Global,
    drawn: &DrawnNetwork,
    seen: &[NumberSeen],
    base: &Probed,
    budget: u64,
    turns: &mut RunTurns,
) -> Result<Vec<NumberFound>, NoMemory>
    requires base { IsBaseOf drawn.now budget base.now }
    requires decided { is_decided base.now.found ≡ true }
    ensures { IfOk result (λ found. AreFoundOf drawn.now budget seen.now true found.items) }
{
    let numbers = lent_numbers(alloc, seen)?;
    let span = find_span(alloc, drawn, &numbers, base, budget, turns)?;
    repeated(alloc, seen.len(), span)
}

// The numbers that were seen.
fn lent_numbers<'a>(alloc: Global, seen: &'a [NumberSeen]) -> Result<Vec<&'a DrawnNumber>, NoMemory>
    ensures { IfOk result (λ numbers. lent numbers.items ≡ numbers_in_seen seen.now) }
{
    let mut numbers = Vec::new(alloc);
    for k in 0..seen.len() {
        numbers.push(&seen[k].number)?;
    }
    Ok(numbers)
}

// What is found of the values, so many times.
fn repeated(alloc: Global, count: usize, span: SpanFound) -> Result<Vec<NumberFound>, NoMemory>
    ensures { IfOk result (λ found. found.items ≡ replicate count (found_of span)) }
{
    let mut found = Vec::new(alloc);
    for _k in 0..count {
        found.push(found_of(span))?;
    }
    Ok(found)
}

// What is found of a number that is moved with others.
fn found_of(span: SpanFound) -> NumberFound
    ensures { result ≡ found_of span }
{
    NumberFound {
        ends: EndsFound {
            low: None,
            high: None,
        },
        span: Some(span),
    }
}
