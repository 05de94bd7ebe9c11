//! How lines of a proof are stored.

/// What a stored line is, without its edges.
#[derive(Clone, Copy)]
pub enum StoredKind {
    Split(u32),
    Path,
    Loop,
}

/// A stored line: its kind, and the number of edges of all lines up to its end.
#[derive(Clone, Copy)]
pub struct Stored {
    pub kind: StoredKind,
    pub end: usize,
}
