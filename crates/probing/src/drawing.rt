//! What numbers draw.

ghost use Rattle.std.specs.Prelude.{◌≡◌, ◌<◌, Some, length, slice_get};
ghost use Rattle.drawn_networks.specs.Drawn.{IsRowOf};

use drawn_networks::{DrawnNetwork, Row};
use drawn_numbers::DrawnNumber;
use itv_base::EdgeName;
use moves::{any_draws, part_of_target};
use origin::Origin;

/// Whether one of some numbers gives its range to the row with a number.
pub fn draw_row(drawn: &DrawnNetwork, numbers: &[&DrawnNumber], number: u32) -> bool {
    if drawn.rows().len() <= u64::from(number) {
        return false;
    }
    let row = row_at(drawn, number);
    any_draws(numbers, drawn.name(row.from).part, row.origin)
}

// The row with a number. There has to be such a row.
fn row_at(drawn: &DrawnNetwork, number: u32) -> &Row
    requires number { number < length drawn.now.rows }
    ensures row { slice_get drawn.now.rows number ≡ Some result.now }
    ensures within { IsRowOf drawn.now.net result.now }
{
    drawn.rows().get(u64::from(number))
}

/// Whether one of some numbers gives its range to the cause of an edge.
pub fn draw_edge(drawn: &DrawnNetwork, numbers: &[&DrawnNumber], name: EdgeName) -> bool {
    if drawn.network().len() <= name.constraint {
        return false;
    }
    match origin_at(drawn, name) {
        None => false,
        Some(origin) => any_draws(numbers, part_of_target(drawn, name.constraint), origin),
    }
}

// What draws the cause of an edge, if it is there.
fn origin_at(drawn: &DrawnNetwork, name: EdgeName) -> Option<Origin> {
    let constraints = drawn.origins();
    if constraints.len() <= u64::from(name.constraint) {
        return None;
    }
    let origins = constraints.get(u64::from(name.constraint));
    if origins.len() <= u64::from(name.cause) {
        return None;
    }
    Some(*origins.get(u64::from(name.cause)))
}
