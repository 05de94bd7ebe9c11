//! The words of a line, and how single words of it are read.

ghost use Rattle.std.specs.Prelude.{◌≡◌, IfOk, option_map};
ghost use Rattle.line_words.specs.Words.{behind_word, only_word, split_words, two_words};
ghost use Rattle.line_words.specs.Views.{texts};

use itv_base::NoMemory;
use std::alloc::{AllocError, Global};

fn collect_words(alloc: Global, line: &str) -> Result<Vec<&str>, AllocError>
    ensures { IfOk result (λ v. texts v.items ≡ split_words line.now) }
{
    line.split(' ').collect(alloc)
}

/// The words of a line: the parts between its spaces. A line has one word more than spaces. A word may be empty.
pub fn split_words<'a>(alloc: Global, line: &'a str) -> Result<Vec<&'a str>, NoMemory>
    ensures words { IfOk result (λ v. texts v.items ≡ split_words line.now) }
{
    Ok(collect_words(alloc, line)?)
}

/// The words after the first word, if the first word is `key`.
pub fn behind_word<'a, 'b>(words: &'b [&'a str], key: &str) -> Option<&'b [&'a str]>
    ensures words { option_map (λ w. texts w.now) result ≡ behind_word key.now (texts words.now) }
{
    match words {
        [word, rest @ ..] if *word == key => Some(rest),
        _ => None,
    }
}

/// The only word, if there is exactly one.
pub fn only_word<'a>(words: &[&'a str]) -> Option<&'a str>
    ensures word { option_map (λ w. w.now) result ≡ only_word (texts words.now) }
{
    match words {
        [word] => Some(word),
        _ => None,
    }
}

/// The two words, if there are exactly two.
pub fn two_words<'a>(words: &[&'a str]) -> Option<(&'a str, &'a str)>
    ensures words { option_map (λ p. (p.0.now, p.1.now)) result ≡ two_words (texts words.now) }
{
    match words {
        [word, other] => Some((word, other)),
        _ => None,
    }
}
