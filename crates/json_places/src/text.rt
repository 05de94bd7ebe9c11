//! The characters of texts.

use crate::scan::Scan;

/// Where a character of a text begins: the text's first quote is at a byte, and its characters count from 0. After them it is where the text ends.
pub fn character_at(bytes: &[u8], quote: usize, number: u64) -> usize {
    let mut scan = Scan::new(bytes, quote);
    if !scan.takes(b'"') {
        return quote;
    }
    for _ in 0..number {
        match scan.here() {
            None | Some(b'"') => break,
            Some(byte) => scan.pass(bytes_of(&scan, byte)),
        }
    }
    scan.at()
}

// How many bytes the character here has, as it is written, given its first byte.
fn bytes_of(scan: &Scan<'_>, first: u8) -> usize {
    match first {
        b'\\' if scan.ahead(1) != Some(b'u') => 2,
        b'\\' if is_half(scan) => 12,
        b'\\' => 6,
        0xc0..=0xdf => 2,
        0xe0..=0xef => 3,
        0xf0..=0xff => 4,
        _ => 1,
    }
}

// Whether the escape here is the first half of a character that takes two.
fn is_half(scan: &Scan<'_>) -> bool {
    matches!(
        (scan.ahead(2), scan.ahead(3)),
        (
            Some(b'd' | b'D'),
            Some(b'8' | b'9' | b'a' | b'A' | b'b' | b'B')
        )
    )
}

/// Whether the text here is this one. A character beyond ASCII that the text has as an escape is not recognized.
pub(crate) fn is_text(scan: Scan<'_>, text: &str) -> bool {
    let mut scan = scan;
    if !scan.takes(b'"') {
        return false;
    }
    for byte in text.bytes() {
        if !takes_byte(&mut scan, byte) {
            return false;
        }
    }
    scan.here() == Some(b'"')
}

// Whether a byte of a text is here, perhaps as an escape. It is then passed.
fn takes_byte(scan: &mut Scan<'_>, byte: u8) -> bool {
    if scan.here() != Some(b'\\') {
        return scan.takes(byte);
    }
    let is_here = escaped(scan) == Some(u32::from(byte)) && byte < 0x80;
    scan.pass(bytes_of(scan, b'\\'));
    is_here
}

// The number of the character of the escape here.
fn escaped(scan: &Scan<'_>) -> Option<u32> {
    match scan.ahead(1)? {
        b'u' => code_of(scan),
        b'n' => Some(10),
        b't' => Some(9),
        b'r' => Some(13),
        b'b' => Some(8),
        b'f' => Some(12),
        byte => Some(u32::from(byte)),
    }
}

// The number in the four digits of an escape.
fn code_of(scan: &Scan<'_>) -> Option<u32> {
    let mut code = 0u32;
    for k in 2..6 {
        let digit = char::from(scan.ahead(k)?).to_digit(16)?;
        code = code.saturating_mul(16).saturating_add(digit);
    }
    Some(code)
}
