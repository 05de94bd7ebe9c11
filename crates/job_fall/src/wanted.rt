//! How the job is asked for.

/// How the job is asked for: the most lines of the derivation of the finding and of each bound, and whether the lines
/// are printed.
#[derive(Clone, Copy)]
pub struct Wanted {
    pub turns: u64,
    pub cert: bool,
}
