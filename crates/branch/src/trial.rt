//! Times to try on a network, and what the choice of a split needs.

use crate::distances::Distances;

/// Candidate times of a case in picoseconds, a flag for each event that can be raised from them, and the distances of constraints.
#[derive(Drop)]
pub struct Trial {
    pub candidate: Vec<i64>,
    pub ray: Vec<bool>,
    pub distances: Distances,
}
