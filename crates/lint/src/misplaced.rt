//! Notes that look like what belongs before them.

ghost use Rattle.std.specs.Prelude.{◌≡◌, ◌≤◌, ◌==◌, length, slice_index};
ghost use Rattle.std.specs.List.{before_first, list_any, prefix_len, position_or_len};
ghost use Rattle.itv_base.specs.Cuts.{after_while};
ghost use Rattle.lint.specs.Step.{is_note_misplaced};
ghost use Rattle.lint.specs.Texts.{is_before_word, is_misplaced, is_unit, is_word_end, same_letters};

use crate::letters::same_letters;

/// Whether a note begins, from its first word on, with a unit of time or with an opening bracket.
pub fn is_note_misplaced(note: &[u8]) -> bool
    ensures { result ≡ is_note_misplaced note.now }
{
    is_misplaced(from_first_word(note))
}

// A note from its first word on: spaces and opening round brackets may stand before the word.
fn from_first_word(note: &[u8]) -> &[u8]
    ensures { result.now ≡ after_while is_before_word note.now }
{
    &note[front_len(note)..]
}

fn front_len(note: &[u8]) -> usize
    ensures count { result ≡ prefix_len is_before_word note.now }
    ensures within { result ≤ length note.now }
{
    note.iter()
        .take_while(|byte| is_before_word(**byte))
        .count()
}

fn is_before_word(byte: u8) -> bool
    ensures { result ≡ is_before_word byte }
{
    byte == b' ' || byte == b'('
}

// Whether a note from its first word on begins with a unit of time or with an opening bracket.
fn is_misplaced(note: &[u8]) -> bool
    ensures { result ≡ is_misplaced note.now }
{
    is_unit(first_word(note)) || begins_with_bracket(note)
}

fn begins_with_bracket(note: &[u8]) -> bool
    ensures { result ≡ (slice_index note.now 0 == 91) }
{
    match note {
        [first, ..] => *first == b'[',
        [] => false,
    }
}

// The bytes before the first byte that ends a word.
fn first_word(note: &[u8]) -> &[u8]
    ensures { result.now ≡ before_first is_word_end note.now }
{
    &note[..word_len(note)]
}

fn word_len(note: &[u8]) -> usize
    ensures count { result ≡ position_or_len is_word_end note.now }
    ensures within { result ≤ length note.now }
{
    note.iter().take_while(|byte| !is_word_end(**byte)).count()
}

fn is_word_end(byte: u8) -> bool
    ensures { result ≡ is_word_end byte }
{
    matches!(byte, b' ' | b',' | b'.' | b';' | b':' | b')')
}

// Whether a word is a unit of time, in any letters. The micro sign and the Greek letter mu have two bytes each.
fn is_unit(word: &[u8]) -> bool
    ensures { result ≡ is_unit word.now }
{
    is_one_of(
        word,
        &[
            b"fs",
            b"ps",
            b"ns",
            b"us",
            b"ms",
            b"s",
            b"\xC2\xB5s",
            b"\xCE\xBCs",
            b"fsec",
            b"psec",
            b"nsec",
            b"usec",
            b"msec",
            b"sec",
            b"\xC2\xB5sec",
            b"\xCE\xBCsec",
        ],
    )
}

// Whether a word differs from one of some words at most by capitals.
fn is_one_of(word: &[u8], words: &[&[u8]]) -> bool
    ensures { result ≡ list_any (λ w. same_letters word.now w.now) words.now }
{
    words.iter().any(|other| same_letters(word, other))
}
