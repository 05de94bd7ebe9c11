//! What names and marks are made of.

ghost use Rattle.std.specs.Prelude.{◌≡◌};
ghost use Rattle.std.specs.List.{list_all};
ghost use Rattle.itv_base.specs.Characters.{is_name_byte, is_name, is_mark};

use crate::limits::MAX_NAME_LEN;

/// Whether a byte is a letter of ASCII, a digit or `_`.
pub fn is_name_byte(b: u8) -> bool
    ensures test { result ≡ is_name_byte b }
{
    b.is_ascii_alphanumeric() || b == b'_'
}

fn are_name_bytes(bytes: &[u8]) -> bool
    ensures { result ≡ list_all is_name_byte bytes.now }
{
    bytes.iter().all(|b| is_name_byte(*b))
}

/// Whether a text is letters of ASCII, digits or `_`, one at least and [`MAX_NAME_LEN`] at most: the name of a part, or a tag.
pub fn is_name(text: &str) -> bool
    ensures test { result ≡ is_name text.now }
{
    let bytes = text.as_bytes();
    !bytes.is_empty() && bytes.len() <= MAX_NAME_LEN && are_name_bytes(bytes)
}

/// Whether a byte is a visible character of ASCII that is not a full stop.
pub fn is_mark(b: u8) -> bool
    ensures test { result ≡ is_mark b }
{
    b.is_ascii_graphic() && b != b'.'
}
