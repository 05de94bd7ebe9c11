//! Going over a text in JSON.

/// A place in a text, at a byte of it.
#[derive(Clone, Copy)]
pub(crate) struct Scan<'a> {
    bytes: &'a [u8],
    at: usize,
}

impl<'a> Scan<'a> {
    /// The place at a byte.
    pub(crate) fn new(bytes: &'a [u8], at: usize) -> Scan<'a> {
        Scan { bytes, at }
    }

    /// The number of the byte.
    pub(crate) fn at(&self) -> usize {
        self.at
    }

    /// How many bytes the text has.
    pub(crate) fn len(&self) -> usize {
        self.bytes.len()
    }

    /// The byte here, or `None` at the end.
    pub(crate) fn here(&self) -> Option<u8> {
        self.ahead(0)
    }

    /// The byte after so many more.
    pub(crate) fn ahead(&self, count: usize) -> Option<u8> {
        self.bytes.get(self.at.saturating_add(count)).copied()
    }

    /// Goes on by so many bytes.
    pub(crate) fn pass(&mut self, count: usize) {
        self.at = self.at.saturating_add(count);
    }

    /// Whether this byte is here, which is then passed.
    pub(crate) fn takes(&mut self, byte: u8) -> bool {
        let is_here = self.here() == Some(byte);
        if is_here {
            self.pass(1);
        }
        is_here
    }

    /// Passes blanks.
    pub(crate) fn pass_blanks(&mut self) {
        for _ in 0..self.len() {
            match self.here() {
                Some(b' ' | b'\t' | b'\n' | b'\r') => self.pass(1),
                _ => return,
            }
        }
    }

    /// Passes a value or a key, and the blanks after it, up to a comma, a colon or a bracket that closes.
    pub(crate) fn pass_value(&mut self) {
        let mut depth = 0u64;
        for _ in 0..self.len() {
            match self.here() {
                None => return,
                Some(b',' | b':' | b'}' | b']') if depth == 0 => return,
                Some(b'"') => self.pass_text(),
                Some(byte) => {
                    depth = depth_after(depth, byte);
                    self.pass(1);
                }
            }
        }
    }

    /// Passes a text from its first quote to its last one.
    pub(crate) fn pass_text(&mut self) {
        self.pass(1);
        for _ in 0..self.len() {
            match self.here() {
                None => return,
                Some(b'"') => return self.pass(1),
                Some(b'\\') => self.pass(2),
                Some(_) => self.pass(1),
            }
        }
    }
}

/// How many brackets are open after a byte that is in no text.
pub(crate) fn depth_after(depth: u64, byte: u8) -> u64 {
    match byte {
        b'{' | b'[' => depth.saturating_add(1),
        b'}' | b']' => depth.saturating_sub(1),
        _ => depth,
    }
}
