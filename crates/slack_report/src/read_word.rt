//! Reading the words of a report.

ghost use Rattle.std.specs.Prelude.{◌≡◌, option_map};
ghost use Rattle.std.specs.List.{prefix_len, take_while};
ghost use Rattle.itv_base.specs.Cuts.{after_while};
ghost use Rattle.itv_base.specs.Names.{name_view};
ghost use Rattle.slack_report.specs.Reading.{budget_in, ending_in, finding_in, is_end_byte, mark_in, name_in, range_from, range_in};
ghost use Rattle.slack_report.specs.Step.Cuts.{mark_of};

use crate::words::EndWord;
use itv_base::{EventName, MAX_BUDGET, MAX_CYCLES, Range, is_mark, is_name, split_name, strip};
use line_words::{number_in, open_in};
use requirements::Consistency;

/// The number of cases that a search may close.
pub fn budget_in(word: &str) -> Option<u64>
    ensures { result ≡ budget_in word.now }
{
    let most = number_in(MAX_BUDGET, word)?;
    (1 <= most).then_some(most)
}

// The mark with which a text begins, and the text after it.
fn split_mark(text: &str) -> Option<(u8, &str)>
    ensures { option_map (λ x. (x.0, x.1.now)) result ≡ mark_of text.now }
{
    let mark = *text.as_bytes().first()?;
    if !is_mark(mark) {
        return None;
    }
    Some((mark, text.split_at(1).1))
}

// A mark, `@` and a cycle. The part and the full stop stand before them.
fn mark_in<'a>(part: &'a str, rest: &str) -> Option<EventName<'a>>
    ensures { option_map (λ n. name_view n) result ≡ mark_in part.now rest.now }
{
    let (mark, rest) = split_mark(rest)?;
    let cycle = number_in(u64::from(MAX_CYCLES - 1), strip(rest, "@")?)?;
    Some(EventName {
        part,
        mark,
        cycle: cycle as u32,
    })
}

/// The name of an event.
#[tactic(auto, unfolding(crate::specs::Reading::name_in))]
pub fn name_in(word: &str) -> Option<EventName<'_>>
    ensures { option_map (λ n. name_view n) result ≡ name_in word.now }
{
    let (part, rest) = split_name(word);
    if !is_name(part) {
        return None;
    }
    mark_in(part, strip(rest, ".")?)
}

/// What a search found.
pub fn finding_in(word: &str) -> Option<Consistency>
    ensures { result ≡ finding_in word.now }
{
    match word {
        "consistent" => Some(Consistency::Consistent),
        "inconsistent" => Some(Consistency::Inconsistent),
        "unsettled" => Some(Consistency::Open),
        _ => None,
    }
}

/// How a report ends.
pub fn ending_in(word: &str) -> Option<EndWord>
    ensures { result ≡ ending_in word.now }
{
    match word {
        "pass" => Some(EndWord::Pass),
        "fail" => Some(EndWord::Fail),
        "inconsistent" => Some(EndWord::Inconsistent),
        "undecided" => Some(EndWord::Undecided),
        _ => None,
    }
}

fn is_end_byte(b: u8) -> bool
    ensures { result ≡ is_end_byte b }
{
    b.is_ascii_digit() || b == b'-' || b == b'*'
}

fn end_len(bytes: &[u8]) -> usize
    ensures { result ≡ prefix_len is_end_byte bytes.now }
{
    bytes.iter().take_while(|b| is_end_byte(**b)).count()
}

// The longest front of digits, `-` and `*` of a text, and the text after it.
fn split_end(text: &str) -> (&str, &str)
    ensures end { result.0.now ≡ take_while is_end_byte text.now }
    ensures rest { result.1.now ≡ after_while is_end_byte text.now }
{
    text.split_at(end_len(text.as_bytes()))
}

fn range_from(low: Option<i64>, high: Option<i64>) -> Option<Range>
    ensures { result ≡ range_from low high }
{
    Range::new(low, high).ok()
}

/// A range: two ends in brackets.
#[tactic(auto, unfolding(crate::specs::Reading::range_in))]
pub fn range_in(word: &str) -> Option<Range>
    ensures { result ≡ range_in word.now }
{
    let (low, rest) = split_end(strip(word, "[")?);
    let low = open_in(low)?;
    let (high, rest) = split_end(strip(rest, ",")?);
    let high = open_in(high)?;
    if rest != "]" {
        return None;
    }
    range_from(low, high)
}
