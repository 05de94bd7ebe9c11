//! Writing all rows.

ghost use Rattle.std.specs.Prelude.{◌≡◌, ◌||◌, ℤ, Bool, List};
ghost use Rattle.event_graph.specs.Satisfying.{Satisfies};
ghost use Rattle.falling.specs.View.{IsViewOf};
ghost use Rattle.falling.specs.declared.view.View.{View};
ghost use Rattle.drawn_networks.specs.declared.row.Row.{Row};
ghost use Rattle.drawn_networks.specs.Drawn.{IsRowOf};
ghost use Rattle.job_fall.specs.Fall.{at_row, at_rows};
ghost use Rattle.job_fall.specs.Step.{WritesPieces, IsSet, asked, before_end, behind_row, fall_row};

use crate::bounding::print_bound;
use crate::desk::Desk;
use crate::wanted::Wanted;
use drawn_networks::{DrawnNetwork, Row};
use itv_base::{PutFailed, Sink};
use job_base::{put_row, row_at};
use slack_report::{Item, Which, write_item};

/// Writes the number of rows and each row. Some times must satisfy the network. Returns whether the turns of a bound
/// were spent.
pub fn print_rows<K: Sink>(
    drawn: &DrawnNetwork,
    wanted: Wanted,
    desk: &mut Desk,
    sink: &mut K,
) -> Result<bool, PutFailed>
    requires set { IsSet drawn.now.net desk.old }
    requires consistent { (times : List ℤ) × Satisfies times drawn.now.net }
    ensures goes { (view : View) → IsViewOf drawn.now.net view
        → WritesPieces (asked drawn.now view wanted) at_rows before_end (K.state sink.old) (K.state sink.new) result }
{
    let count = drawn.rows().len() as u32;
    write_item(&Item::Rows { count }, &mut desk.buffer, sink)?;
    let mut is_spent = false;
    for number in 0..count {
        let row = row_at(drawn, number);
        let was_spent = print_row(number, row, drawn, wanted, desk, sink)?;
        is_spent = either(is_spent, was_spent);
    }
    Ok(is_spent)
}

// Writes a row and both of its bounds. Returns whether the turns of one of them were spent.
fn print_row<K: Sink>(
    number: u32,
    row: &Row,
    drawn: &DrawnNetwork,
    wanted: Wanted,
    desk: &mut Desk,
    sink: &mut K,
) -> Result<bool, PutFailed>
    requires set { IsSet drawn.now.net desk.old }
    requires consistent { (times : List ℤ) × Satisfies times drawn.now.net }
    requires row { IsRowOf drawn.now.net row.now }
    ensures set { IsSet drawn.now.net desk.new }
    ensures goes { (view : View) (spent : Bool) (later : List Row) → IsViewOf drawn.now.net view
        → WritesPieces (asked drawn.now view wanted) (at_row (fall_row spent number row.now later)) (behind_row (fall_row spent number row.now later))
        (K.state sink.old) (K.state sink.new) result }
{
    put_row(number, row, drawn, &mut desk.buffer, sink)?;
    let net = drawn.network();
    let is_greatest_spent = print_bound(Which::Max, row, net, wanted, desk, sink)?;
    let is_least_spent = print_bound(Which::Min, row, net, wanted, desk, sink)?;
    Ok(either(is_greatest_spent, is_least_spent))
}

// Whether one of the two is true.
fn either(first: bool, second: bool) -> bool
    ensures { result ≡ (first || second) }
{
    first || second
}
