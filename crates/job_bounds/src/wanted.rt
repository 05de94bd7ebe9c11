//! How a report is asked for.

/// How a report is asked for: how many cases each search may close, and whether the lines of proofs are printed.
#[derive(Clone, Copy)]
pub struct Wanted {
    pub budget: u64,
    pub cert: bool,
}
