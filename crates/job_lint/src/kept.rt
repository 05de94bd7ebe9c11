//! Whether all satisfying times keep a range.

ghost use Rattle.std.specs.Prelude.{◌≡◌};
ghost use Rattle.job_lint.specs.Step.Keeping.{extent_by, extent_of, kept_below, kept_both, kept_in, order_by_finding, order_by_kept};

use crate::by_order::ByOrder;
use crate::pair_seen::PairSeen;
use event_graph::negated_end;
use extremes::Greatest;
use itv_base::Range;
use requirements::{Consistency, Separation};

/// The greatest separation of a pair of events, in picoseconds.
#[derive(Clone, Copy)]
pub enum Extent {
    Closed(i64),
    Unbounded,
    /// It is not known.
    Open,
}

/// Whether all satisfying times keep a side of a range, or a range.
#[derive(Clone, Copy)]
pub enum RangeKept {
    All,
    NotAll,
    /// It is not known.
    Open,
}

/// The greatest separation that is found of a pair.
pub fn extent_of(seen: &PairSeen) -> Extent
    ensures extent { result ≡ extent_of seen.now }
{
    match seen {
        PairSeen::Closed { value, .. } => Extent::Closed(*value),
        PairSeen::Unbounded => Extent::Unbounded,
        PairSeen::Open => Extent::Open,
    }
}

/// The greatest separation that a search found.
pub fn extent_by(found: &Greatest) -> Extent
    ensures extent { result ≡ extent_by found.now }
{
    match found {
        Separation::Closed { value, .. } => Extent::Closed(*value),
        Separation::Unbounded { .. } => Extent::Unbounded,
        Separation::Open { .. } => Extent::Open,
    }
}

/// Whether all satisfying times keep a range, according to the greatest separation of the pair and of the reversed pair.
pub fn kept_in(range: Range, found: Extent, reversed: Extent) -> RangeKept
    ensures kept { result ≡ kept_in range found reversed }
{
    let high = range.high();
    let low = negated_end(range.low());
    kept_both(kept_below(high, found), kept_below(low, reversed))
}

// Whether all separations of a pair keep below an end.
fn kept_below(end: Option<i64>, found: Extent) -> RangeKept
    ensures { result ≡ kept_below end found }
{
    let Some(end) = end else {
        return RangeKept::All;
    };
    match found {
        Extent::Closed(value) if value <= end => RangeKept::All,
        Extent::Closed(_) => RangeKept::NotAll,
        Extent::Unbounded => RangeKept::NotAll,
        Extent::Open => RangeKept::Open,
    }
}

// Whether both sides are kept.
fn kept_both(first: RangeKept, other: RangeKept) -> RangeKept
    ensures { result ≡ kept_both first other }
{
    match (first, other) {
        (RangeKept::NotAll, _) => RangeKept::NotAll,
        (RangeKept::All, other) => other,
        (RangeKept::Open, RangeKept::NotAll) => RangeKept::NotAll,
        (RangeKept::Open, _) => RangeKept::Open,
    }
}

/// Whether a requirement that is kept in the drawn network passes because of the order of lanes alone, given whether it is kept
/// without that order.
pub fn order_by_kept(kept: RangeKept) -> ByOrder
    ensures order { result ≡ order_by_kept kept }
{
    match kept {
        RangeKept::All => ByOrder::No,
        RangeKept::NotAll => ByOrder::Yes,
        RangeKept::Open => ByOrder::Open,
    }
}

/// Whether rules that contradict each other do so because of the order of lanes alone, given what is found without that order.
pub fn order_by_finding(found: Consistency) -> ByOrder
    ensures order { result ≡ order_by_finding found }
{
    match found {
        Consistency::Consistent => ByOrder::Yes,
        Consistency::Inconsistent => ByOrder::No,
        Consistency::Open => ByOrder::Open,
    }
}
