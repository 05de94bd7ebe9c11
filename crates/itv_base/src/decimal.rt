//! Whole numbers in decimal: reading their texts and printing them.

ghost use Rattle.std.specs.Prelude.{◌≡◌, if◌then◌else◌, nat_le, Some, None, IsTrue};
ghost use Rattle.std.specs.List.{list_all};
ghost use Rattle.std.specs.Char.{is_ascii_digit};
ghost use Rattle.itv_base.specs.Numerals.{number_text, signed_text, end_text, is_numeral, value_of};

use itoa::Buffer;

fn are_digits(bytes: &[u8]) -> bool
    ensures { result ≡ list_all is_ascii_digit bytes.now }
{
    bytes.iter().all(|b| b.is_ascii_digit())
}

/// Whether a text is a number in decimal, without a zero in front.
pub fn is_numeral(text: &str) -> bool
    ensures test { result ≡ is_numeral text.now }
{
    let bytes = text.as_bytes();
    are_digits(bytes) && !bytes.is_empty() && (bytes[0] != b'0' || bytes.len() == 1)
}

/// The number that a numeral writes, unless it is above a limit.
pub fn value_up_to(numeral: &str, limit: u64) -> Option<u64>
    requires { IsTrue (is_numeral numeral.now) }
    ensures value { result ≡ (if nat_le (value_of numeral.now) limit then Some (value_of numeral.now) else None) }
{
    let value = numeral.parse::<u64>().ok()?;
    (value <= limit).then_some(value)
}

/// The text of a number. The buffer takes its digits.
pub fn number_text(number: u64, buffer: &mut Buffer) -> &str
    ensures text { result.now ≡ number_text number }
{
    buffer.format(number)
}

/// The text of a number that may be below 0. The buffer takes its digits.
pub fn signed_text(number: i64, buffer: &mut Buffer) -> &str
    ensures text { result.now ≡ signed_text number }
{
    buffer.format(number)
}

/// The text of an end of a range, which is `*` where the end is open. The buffer takes its digits.
pub fn end_text(end: Option<i64>, buffer: &mut Buffer) -> &str
    ensures text { result.now ≡ end_text end }
{
    match end {
        None => "*",
        Some(number) => signed_text(number, buffer),
    }
}
