//! Lines of proofs.

use itv_base::EdgeName;

/// A line of a proof by cases, with its edges lent. It splits the case at hand by the causes of the constraint with
/// this number, counted from 0, or it closes the case by a path or by a loop of edges.
#[derive(Clone, Copy)]
pub enum Line<'a> {
    Split(u32),
    Path(&'a [EdgeName]),
    Loop(&'a [EdgeName]),
}
