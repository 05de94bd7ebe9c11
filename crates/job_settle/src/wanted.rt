//! How each search is to be made.

/// How many turns each search may take, and whether its proof is printed.
#[derive(Clone, Copy)]
pub struct Wanted {
    pub turns: u64,
    pub cert: bool,
}
