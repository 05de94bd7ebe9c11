//! Rows whose answer rests on the order of a lane, and rows that were left open.

ghost use Rattle.std.specs.Prelude.{◌≡◌};
ghost use Rattle.std.specs.List.{list_any};
ghost use Rattle.job_lint.specs.Found.{is_order_open, is_pair_open, is_row_open};
ghost use Rattle.job_lint.specs.Lines.{goes_over, has_end, is_by_order, is_judged, is_lane_edge, rests_on_order};

use crate::by_order::ByOrder;
use crate::ends::origin_at;
use crate::pair_seen::PairSeen;
use crate::row_seen::RowSeen;
use drawn_networks::{DrawnNetwork, Row};
use itv_base::{EdgeName, Range, RowKind, Side};

/// Whether a chain for a bound of a row that is judged goes over the order of a lane, or its requirement passes because of that order alone.
pub fn rests_on_order(drawn: &DrawnNetwork, row: &Row, found: &RowSeen) -> bool
    ensures rests { result ≡ rests_on_order drawn.now row.now found.now }
{
    (is_judged(Side::Upper, row.kind) && goes_over(drawn, &found.greatest))
        || (is_judged(Side::Lower, row.kind) && goes_over(drawn, &found.least))
        || is_by_order(found.passes)
}

// Whether a bound of a row is judged: of a question both are, and of a requirement those on whose side it has an end.
fn is_judged(side: Side, kind: RowKind) -> bool
    ensures { result ≡ is_judged side kind }
{
    match kind {
        RowKind::Ask => true,
        RowKind::Req(range) => has_end(side, range),
    }
}

// Whether a range has an end on a side.
fn has_end(side: Side, range: Range) -> bool
    ensures { result ≡ has_end side range }
{
    match side {
        Side::Upper => range.high().is_some(),
        Side::Lower => range.low().is_some(),
    }
}

// Whether a chain goes over the order of a lane.
fn goes_over(drawn: &DrawnNetwork, found: &PairSeen) -> bool
    ensures { result ≡ goes_over drawn.now found.now }
{
    match found {
        PairSeen::Closed { chain, .. } => has_lane_edge(drawn, chain),
        PairSeen::Unbounded | PairSeen::Open => false,
    }
}

fn has_lane_edge(drawn: &DrawnNetwork, chain: &[EdgeName]) -> bool
    ensures { result ≡ list_any (is_lane_edge drawn.now) chain.now }
{
    chain.iter().any(|name| is_lane_edge(drawn, *name))
}

// Whether the order of a lane draws an edge.
fn is_lane_edge(drawn: &DrawnNetwork, name: EdgeName) -> bool
    ensures { result ≡ is_lane_edge drawn.now name }
{
    match origin_at(drawn, name) {
        Some(origin) => origin.is_lane(),
        None => false,
    }
}

fn is_by_order(by: ByOrder) -> bool
    ensures { result ≡ is_by_order by }
{
    match by {
        ByOrder::Yes => true,
        ByOrder::No | ByOrder::Open => false,
    }
}

/// Whether something of a row was left open.
pub fn is_row_open(found: &RowSeen) -> bool
    ensures open { result ≡ is_row_open found.now }
{
    is_pair_open(&found.greatest) || is_pair_open(&found.least) || is_order_open(found.passes)
}

fn is_pair_open(found: &PairSeen) -> bool
    ensures { result ≡ is_pair_open found.now }
{
    match found {
        PairSeen::Closed { .. } | PairSeen::Unbounded => false,
        PairSeen::Open => true,
    }
}

fn is_order_open(by: ByOrder) -> bool
    ensures { result ≡ is_order_open by }
{
    match by {
        ByOrder::Yes | ByOrder::No => false,
        ByOrder::Open => true,
    }
}
