//! Lines and columns.

/// A line and a column of a file, both from 1. Columns count characters.
#[derive(Clone, Copy)]
pub struct Place {
    pub line: u64,
    pub column: u64,
}

/// The place of a byte of a text in UTF-8. After the text it is the place of its end.
pub fn place_of(bytes: &[u8], at: usize) -> Place {
    let mut place = Place { line: 1, column: 1 };
    for (k, byte) in bytes.iter().enumerate() {
        if at <= k {
            return place;
        }
        place = place_after(place, *byte);
    }
    place
}

// The place after a byte. Only the first byte of a character counts.
fn place_after(place: Place, byte: u8) -> Place {
    match byte {
        b'\n' => Place {
            line: place.line.saturating_add(1),
            column: 1,
        },
        0x80..=0xbf => place,
        _ => Place {
            column: place.column.saturating_add(1),
            ..place
        },
    }
}

/// The byte at a line and at a byte of it, both from 1, or the end of the text if it has no such byte.
pub fn byte_at(bytes: &[u8], line: usize, column: usize) -> usize {
    let mut at_line = 1usize;
    let mut at_byte = 1usize;
    for (k, byte) in bytes.iter().enumerate() {
        if at_line == line && at_byte == column {
            return k;
        }
        if *byte == b'\n' {
            at_line = at_line.saturating_add(1);
            at_byte = 1;
        } else {
            at_byte = at_byte.saturating_add(1);
        }
    }
    bytes.len()
}
