//! Cutting texts.

ghost use Rattle.std.specs.Prelude.{◌≡◌};
ghost use Rattle.std.specs.List.{take_while, prefix_len};
ghost use Rattle.std.specs.Option.{option_copied};
ghost use Rattle.std.specs.Char.{is_ascii_digit};
ghost use Rattle.itv_base.specs.Characters.{is_name_byte};
ghost use Rattle.itv_base.specs.Cuts.{stripped, after_while};

use crate::characters::is_name_byte;

/// The text after a front, if it stands there.
pub fn strip<'a>(text: &'a str, front: &str) -> Option<&'a str>
    ensures rest { option_copied result ≡ stripped front.now text.now }
{
    text.strip_prefix(front)
}

fn digits_len(bytes: &[u8]) -> usize
    ensures { result ≡ prefix_len is_ascii_digit bytes.now }
{
    bytes.iter().take_while(|b| b.is_ascii_digit()).count()
}

/// The digits that a text begins with, and the text after them.
pub fn split_digits(text: &str) -> (&str, &str)
    ensures digits { result.0.now ≡ take_while is_ascii_digit text.now }
    ensures rest { result.1.now ≡ after_while is_ascii_digit text.now }
{
    text.split_at(digits_len(text.as_bytes()))
}

fn name_len(bytes: &[u8]) -> usize
    ensures { result ≡ prefix_len is_name_byte bytes.now }
{
    bytes.iter().take_while(|b| is_name_byte(**b)).count()
}

/// The letters of ASCII, digits and `_` that a text begins with, and the text after them.
pub fn split_name(text: &str) -> (&str, &str)
    ensures name { result.0.now ≡ take_while is_name_byte text.now }
    ensures rest { result.1.now ≡ after_while is_name_byte text.now }
{
    text.split_at(name_len(text.as_bytes()))
}
