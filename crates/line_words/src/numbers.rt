//! Words that are numbers.

ghost use Rattle.std.specs.Prelude.{◌≡◌, ◌-◌, ◌^◌, ◌≤◌, neg_ℤ, pos};
ghost use Rattle.line_words.specs.Numbers.{long_in, negative_in, number_in, open_in, positive_in};

use itv_base::{is_numeral, strip, value_up_to};

/// The number that a word is, up to a limit. It is decimal and has no zero in front.
pub fn number_in(limit: u64, word: &str) -> Option<u64>
    ensures number { result ≡ number_in limit word.now }
{
    if !is_numeral(word) {
        return None;
    }
    value_up_to(word, limit)
}

/// The number of 32 bits that a word is.
pub fn short_in(word: &str) -> Option<u32>
    ensures number { result ≡ number_in (2 ^ 32 - 1) word.now }
{
    let number = number_in(u64::from(u32::MAX), word)?;
    Some(number as u32)
}

// Minus a number.
fn negated(value: u64) -> i64
    requires low { 1 ≤ value }
    requires high { value ≤ 2 ^ 63 }
    ensures { result ≡ neg_ℤ (pos value) }
{
    -((value - 1) as i64) - 1
}

// The number of 64 bits below 0 whose digits, without the sign, these are. There is no `-0`.
fn negative_in(digits: &str) -> Option<i64>
    ensures { result ≡ negative_in digits.now }
{
    let value = number_in(1 << 63, digits)?;
    if value == 0 {
        return None;
    }
    Some(negated(value))
}

fn positive_in(word: &str) -> Option<i64>
    ensures { result ≡ positive_in word.now }
{
    let value = number_in(i64::MAX as u64, word)?;
    Some(value as i64)
}

/// The number of 64 bits that a word is. A minus is in front if it is below 0.
#[tactic(auto, unfolding(crate::specs::Numbers::long_in))]
pub fn long_in(word: &str) -> Option<i64>
    ensures number { result ≡ long_in word.now }
{
    match strip(word, "-") {
        Some(digits) => negative_in(digits),
        None => positive_in(word),
    }
}

/// The number of 64 bits that a word is, or `None` in it for a star.
#[tactic(auto, unfolding(crate::specs::Numbers::open_in))]
pub fn open_in(word: &str) -> Option<Option<i64>>
    ensures number { result ≡ open_in word.now }
{
    if let Some(value) = long_in(word) {
        return Some(Some(value));
    }
    (word == "*").then_some(None)
}
