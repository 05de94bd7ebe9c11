//! Writing one bound of a row.

ghost use Rattle.std.specs.Prelude.{◌≡◌, ◌<◌, ℕ, ℤ, Bool, List, IfOk, OnErr, length};
ghost use Rattle.event_graph.specs.Satisfying.{Satisfies};
ghost use Rattle.falling.specs.declared.line.FallLine.{FallLine};
ghost use Rattle.falling.specs.Solving.{IsMadeFor};
ghost use Rattle.falling.specs.Cap.{IsNearValue};
ghost use Rattle.itv_base.specs.Outside.{Puts};
ghost use Rattle.drawn_networks.specs.Drawn.{IsRowOf};
ghost use Rattle.job_fall.specs.Fall.{Job, FallRow, at_bound, behind_bound};
ghost use Rattle.job_fall.specs.Shows.{shown_by};
ghost use Rattle.job_fall.specs.Step.{AnswersRow, BeginsFrom, WritesPieces, IsJobOf, IsSet, WroteDerivation, WasCut, shown_bound, was_spent};
ghost use Rattle.job_fall.specs.Text.{bound_spent, bound_text, closed, unbounded};
ghost use Rattle.job_fall.specs.View.{source};

use crate::desk::Desk;
use crate::search::greatest_of;
use crate::times::take_moved;
use crate::wanted::Wanted;
use drawn_networks::Row;
use event_graph::Network;
use falling::{Fallen, Falling};
use itv_base::{PutFailed, Sink};
use line_words::LineBuffer;
use requirements::Bound;
use slack_report::{Item, Which, write_item};

/// Searches for a bound of a row and writes it. Some times must satisfy the network. Returns whether the turns of the
/// bound were spent.
pub fn print_bound<K: Sink>(
    which: Which,
    row: &Row,
    net: &Network,
    wanted: Wanted,
    desk: &mut Desk,
    sink: &mut K,
) -> Result<bool, PutFailed>
    requires set { IsSet net.now desk.old }
    requires consistent { (times : List ℤ) × Satisfies times net.now }
    requires row { IsRowOf net.now row.now }
    ensures set { IsSet net.now desk.new }
    ensures goes { (job : Job) (current : FallRow) → IsJobOf net.now wanted job → current.row ≡ row.now
        → WritesPieces job (at_bound current which) (behind_bound current which) (K.state sink.old) (K.state sink.new) result }
{
    let fallen = search_bound(which, row, net, wanted, &mut desk.solver, sink)?;
    put_bound(which, row, fallen, net, desk, sink)?;
    Ok(was_spent(fallen))
}

// Whether the turns were spent.
fn was_spent(fallen: Fallen) -> bool
    ensures { result ≡ was_spent fallen }
{
    matches!(fallen, Fallen::Spent)
}

// ---- the search

// Searches for a bound of a row: the greatest separation of its pair, or, for the least bound, of the reversed pair.
fn search_bound<K: Sink>(
    which: Which,
    row: &Row,
    net: &Network,
    wanted: Wanted,
    solver: &mut Falling,
    sink: &mut K,
) -> Result<Fallen, PutFailed>
    requires made { IsMadeFor net.now solver.old }
    requires row { IsRowOf net.now row.now }
    ensures made { IsMadeFor net.now solver.new }
    ensures answers { IfOk result (λ fallen. WroteDerivation wanted.cert (K.state sink.old) (K.state sink.new)
        (λ lines. AnswersRow net.now which row.now wanted.turns lines solver.new fallen)) }
    ensures cut { OnErr result (WasCut wanted.cert (K.state sink.old) (K.state sink.new)
        (BeginsFrom net.now wanted.turns (λ view. source view which row.now))) }
{
    match which {
        Which::Max => greatest_of(solver, net, row.from, row.to, wanted, sink),
        Which::Min => greatest_of(solver, net, row.to, row.from, wanted, sink),
    }
}

// ---- the lines

// Puts the lines of a bound, from the latest answer of the solver.
fn put_bound<K: Sink>(
    which: Which,
    row: &Row,
    fallen: Fallen,
    net: &Network,
    desk: &mut Desk,
    sink: &mut K,
) -> Result<(), PutFailed>
    requires set { IsSet net.now desk.old }
    requires consistent { (times : List ℤ) × Satisfies times net.now }
    requires row { IsRowOf net.now row.now }
    requires answers { (turns : ℕ) × (lines : List FallLine)
        × AnswersRow net.now which row.now turns lines desk.old.solver fallen }
    ensures set { IsSet net.now desk.new }
    ensures puts { Puts (K.state sink.old) (K.state sink.new)
        (bound_text which (shown_bound which row.now.from desk.old.solver.times desk.old.solver.ray fallen)) result }
{
    match fallen {
        Fallen::Closed(value) => {
            take_moved(&mut desk.times, desk.solver.times(), row.from);
            let number = shown_by(which, value);
            put_number(which, number, &desk.times, &mut desk.buffer, sink)
        }
        Fallen::Unbounded => {
            take_moved(&mut desk.times, desk.solver.times(), row.from);
            let ray = desk.solver.ray();
            put_unbounded(which, &desk.times, ray, &mut desk.buffer, sink)
        }
        Fallen::Spent => put_spent(which, sink),
        Fallen::Inconsistent => unreachable!(),
    }
}

// The number of a bound, where `value` is the greatest separation of the searched pair.
fn shown_by(which: Which, value: i64) -> i64
    requires near { IsNearValue value }
    ensures { result ≡ shown_by which value }
{
    match which {
        Which::Max => value,
        Which::Min => -value,
    }
}

// Puts a number, and times that attain it.
fn put_number<K: Sink>(
    which: Which,
    value: i64,
    times: &[i64],
    buffer: &mut LineBuffer,
    sink: &mut K,
) -> Result<(), PutFailed>
    ensures { Puts (K.state sink.old) (K.state sink.new) (bound_text which (closed value times.now)) result }
{
    let bound = Bound::Closed(value);
    write_item(&Item::Bound { which, bound }, buffer, sink)?;
    write_item(&Item::Times(times), buffer, sink)
}

// Puts that there is no bound, with times and the events that can be raised from them.
fn put_unbounded<K: Sink>(
    which: Which,
    times: &[i64],
    ray: &[bool],
    buffer: &mut LineBuffer,
    sink: &mut K,
) -> Result<(), PutFailed>
    ensures { Puts (K.state sink.old) (K.state sink.new) (bound_text which (unbounded times.now ray.now)) result }
{
    let bound = Bound::Unbounded;
    write_item(&Item::Bound { which, bound }, buffer, sink)?;
    write_item(&Item::Times(times), buffer, sink)?;
    write_item(&Item::Raise(ray), buffer, sink)
}

// Puts that the turns were spent.
fn put_spent<K: Sink>(which: Which, sink: &mut K) -> Result<(), PutFailed>
    ensures { Puts (K.state sink.old) (K.state sink.new) (bound_text which bound_spent) result }
{
    match which {
        Which::Max => sink.put(b"max spent\n"),
        Which::Min => sink.put(b"min spent\n"),
    }
}
