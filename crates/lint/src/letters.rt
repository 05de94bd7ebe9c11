//! Texts without regard to capitals.

ghost use Rattle.std.specs.Prelude.{◌≡◌};
ghost use Rattle.lint.specs.Texts.{same_letters, small};

/// Whether two texts differ at most by capitals.
pub fn same_letters(left: &[u8], right: &[u8]) -> bool
    ensures { result ≡ same_letters left.now right.now }
{
    left.eq_ignore_ascii_case(right)
}

/// A small letter for a capital letter of ASCII. Any other byte stays.
pub fn small(byte: u8) -> u8
    ensures { result ≡ small byte }
{
    if b'A' <= byte && byte <= b'Z' {
        byte + 32
    } else {
        byte
    }
}
