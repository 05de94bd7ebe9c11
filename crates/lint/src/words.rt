//! First words of comments that are kinds of labels, or nearly are.

ghost use Rattle.std.specs.Prelude.{◌≡◌, ◌≤◌, length};
ghost use Rattle.std.specs.Char.{is_ascii_alphabetic};
ghost use Rattle.std.specs.List.{after_first, list_any, prefix_len, take_while};
ghost use Rattle.itv_base.specs.Cuts.{after_while, is_space};
ghost use Rattle.lint.specs.Texts.{begins_with_kind, first_word, is_nearly};

use crate::letters::small;

/// The text after the first space, or an empty text where there is no space.
pub fn after_space(text: &str) -> &str
    ensures { result.now ≡ after_first is_space text.now }
{
    match text.split_once(' ') {
        Some((_, rest)) => rest,
        None => "",
    }
}

/// Whether the first word of a text is nearly a kind of a label.
pub fn begins_with_kind(text: &[u8]) -> bool
    ensures { result ≡ begins_with_kind text.now }
{
    is_nearly_one(
        first_word(text),
        &[b"ask", b"lin", b"late", b"early", b"req"],
    )
}

// Whether a word is nearly one of some words.
fn is_nearly_one(word: &[u8], kinds: &[&[u8]]) -> bool
    ensures { result ≡ list_any (λ kind. is_nearly word.now kind.now) kinds.now }
{
    kinds.iter().any(|kind| is_nearly(word, kind))
}

// Whether a word is a kind in any letters, or has one letter after it.
fn is_nearly(word: &[u8], kind: &[u8]) -> bool
    ensures { result ≡ is_nearly word.now kind.now }
{
    let [a, word_rest @ ..] = word else {
        return kind.is_empty();
    };
    let [b, kind_rest @ ..] = kind else {
        return word_rest.is_empty();
    };
    small(*a) == small(*b) && is_nearly(word_rest, kind_rest)
}

// The letters that a text begins with, after spaces.
fn first_word(text: &[u8]) -> &[u8]
    ensures { result.now ≡ first_word text.now }
{
    front_letters(from_word(text))
}

// A text after the spaces that it begins with.
fn from_word(text: &[u8]) -> &[u8]
    ensures { result.now ≡ after_while is_space text.now }
{
    &text[spaces_len(text)..]
}

fn spaces_len(text: &[u8]) -> usize
    ensures count { result ≡ prefix_len is_space text.now }
    ensures within { result ≤ length text.now }
{
    text.iter().take_while(|byte| **byte == b' ').count()
}

// The letters that a text begins with.
fn front_letters(text: &[u8]) -> &[u8]
    ensures { result.now ≡ take_while is_ascii_alphabetic text.now }
{
    &text[..letters_len(text)]
}

fn letters_len(text: &[u8]) -> usize
    ensures count { result ≡ prefix_len is_ascii_alphabetic text.now }
    ensures within { result ≤ length text.now }
{
    text.iter()
        .take_while(|byte| byte.is_ascii_alphabetic())
        .count()
}
