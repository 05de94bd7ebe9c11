//! What an edit did to the bounds of a session.

/// How many bounds an edit kept as they were, and how many it searched anew. Each pair has two bounds.
#[derive(Clone, Copy)]
pub struct Change {
    pub kept: u32,
    pub searched: u32,
}
