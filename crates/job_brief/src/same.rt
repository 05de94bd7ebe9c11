//! Rows that say the same in two cycles.

ghost use Rattle.std.specs.Prelude.{◌≡◌};
ghost use Rattle.itv_base.specs.Names.{name_view};
ghost use Rattle.itv_base.specs.declared.row_kind.RowKind.TheVariants.{Ask, Req};
ghost use Rattle.drawn_networks.specs.Drawn.{IsRowOf};
ghost use Rattle.job_brief.specs.Rows.{goes_on, is_next, same_bound, same_end, same_found, same_wanted, same_origin};

use drawn_networks::{DrawnNetwork, Row};
use explanations::RowFound;
use itv_base::{EventName, Range, RowKind};
use job_why::both_of;
use origin::Origin;
use requirements::Bound;

/// A row, and what is found of it.
#[derive(Clone, Copy)]
pub struct FoundRow<'a> {
    pub row: &'a Row,
    pub found: &'a RowFound,
}

/// Whether a row says in the next cycle what another row says.
pub fn goes_on(drawn: &DrawnNetwork, seen: FoundRow<'_>, next: FoundRow<'_>) -> bool
    requires row { IsRowOf drawn.now.net seen.row.now }
    requires next { IsRowOf drawn.now.net next.row.now }
    ensures test { result ≡ goes_on drawn.now (record { number = 0; row = seen.entry.row.now; found = seen.entry.found.now })
        (record { number = 0; row = next.entry.row.now; found = next.entry.found.now }) }
{
    same_origin(seen.row.origin, next.row.origin)
        && same_wanted(&seen.row.kind, &next.row.kind)
        && is_next(drawn.name(seen.row.from), drawn.name(next.row.from))
        && is_next(drawn.name(seen.row.to), drawn.name(next.row.to))
        && same_found(seen.found, next.found)
}

// Whether two names are the names of one event in two cycles, and the second cycle is the next one.
fn is_next(name: EventName<'_>, next: EventName<'_>) -> bool
    ensures test { result ≡ is_next (name_view name.entry) (name_view next.entry) }
{
    name.mark == next.mark
        && u64::from(name.cycle) + 1 == u64::from(next.cycle)
        && name.part == next.part
}

// Whether the same is wanted of two rows.
fn same_wanted(one: &RowKind, other: &RowKind) -> bool
    ensures { result ≡ same_wanted one.now other.now }
{
    match one {
        RowKind::Ask => is_ask(other),
        RowKind::Req(range) => has_range(other, range),
    }
}

fn is_ask(kind: &RowKind) -> bool
    ensures { result ≡ same_wanted Ask kind.now }
{
    match kind {
        RowKind::Ask => true,
        RowKind::Req(_) => false,
    }
}

// Whether a row is a requirement with a range.
fn has_range(kind: &RowKind, range: &Range) -> bool
    ensures { result ≡ same_wanted (Req range.now) kind.now }
{
    match kind {
        RowKind::Ask => false,
        RowKind::Req(other) => {
            same_end(range.low(), other.low()) && same_end(range.high(), other.high())
        }
    }
}

fn same_end(one: Option<i64>, other: Option<i64>) -> bool
    ensures { result ≡ same_end one other }
{
    match (one, other) {
        (Some(one), Some(other)) => one == other,
        (None, None) => true,
        _ => false,
    }
}

fn same_origin(one: Origin, other: Origin) -> bool
    ensures { result ≡ same_origin one other }
{
    match (one, other) {
        (Origin::Lane(one), Origin::Lane(other)) => one == other,
        (Origin::Edge(one), Origin::Edge(other)) => one == other,
        (
            Origin::Pin { net, pin },
            Origin::Pin {
                net: more,
                pin: other,
            },
        ) => net == more && pin == other,
        (Origin::Wire(one), Origin::Wire(other)) => one == other,
        _ => false,
    }
}

// Whether the bounds of two rows are the same, and both verdicts or neither rest on the order of a lane.
fn same_found(one: &RowFound, other: &RowFound) -> bool
    ensures { result ≡ same_found one.now other.now }
{
    let both = both_of(one);
    let more = both_of(other);
    let same_order = if one.apart.is_some() {
        other.apart.is_some()
    } else {
        other.apart.is_none()
    };
    same_bound(both.least, more.least) && same_bound(both.greatest, more.greatest) && same_order
}

fn same_bound(one: Bound, other: Bound) -> bool
    ensures { result ≡ same_bound one other }
{
    match (one, other) {
        (Bound::Closed(one), Bound::Closed(other)) => one == other,
        (Bound::Unbounded, Bound::Unbounded) => true,
        (
            Bound::Within { limit, attained },
            Bound::Within {
                limit: other,
                attained: found,
            },
        ) => same_end(limit, other) && same_end(attained, found),
        _ => false,
    }
}
