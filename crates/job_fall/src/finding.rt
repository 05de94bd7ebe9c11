//! Writing the finding.

ghost use Rattle.std.specs.Prelude.{◌≡◌, ◌<◌, ℕ, List, IfOk, OnErr};
ghost use Rattle.falling.specs.declared.line.FallLine.{FallLine};
ghost use Rattle.falling.specs.Fallen.{asked_of};
ghost use Rattle.falling.specs.Solving.{AnswersAs, IsMadeFor};
ghost use Rattle.itv_base.specs.Outside.{Puts};
ghost use Rattle.job_fall.specs.Fall.{Job, at_finding};
ghost use Rattle.job_fall.specs.Shows.{first_event};
ghost use Rattle.job_fall.specs.Step.{BeginsFrom, WritesPieces, HasFound, IsJobOf, IsSet, ShowsFinding, WroteDerivation, WasCut, behind_found, found_by, shown_finding};
ghost use Rattle.job_fall.specs.Text.{finding_text};

use crate::desk::Desk;
use crate::search::greatest_of;
use crate::wanted::Wanted;
use event_graph::Network;
use falling::{Fallen, Falling};
use itv_base::{EventId, PutFailed, Sink};
use line_words::LineBuffer;
use requirements::Consistency;
use slack_report::{Item, write_item};

/// Looks for times that satisfy a network. Writes the finding and the times, if there are any.
pub fn print_finding<K: Sink>(
    net: &Network,
    wanted: Wanted,
    desk: &mut Desk,
    sink: &mut K,
) -> Result<Consistency, PutFailed>
    requires set { IsSet net.now desk.old }
    ensures set { IsSet net.now desk.new }
    ensures found { IfOk result (HasFound net.now) }
    ensures goes { (job : Job) → IsJobOf net.now wanted job
        → WritesPieces job at_finding behind_found (K.state sink.old) (K.state sink.new) result }
{
    let found = find(net, wanted, &mut desk.solver, sink)?;
    put_finding(found, &desk.solver, &mut desk.buffer, sink)?;
    Ok(found)
}

// Looks for times that satisfy a network. The solver has them afterwards. A network without events is satisfied by an
// empty list of times.
fn find<K: Sink>(
    net: &Network,
    wanted: Wanted,
    solver: &mut Falling,
    sink: &mut K,
) -> Result<Consistency, PutFailed>
    requires made { IsMadeFor net.now solver.old }
    ensures made { IsMadeFor net.now solver.new }
    ensures found { IfOk result (HasFound net.now) }
    ensures shows { IfOk result (λ found. WroteDerivation wanted.cert (K.state sink.old) (K.state sink.new)
        (λ lines. ShowsFinding net.now wanted.turns lines (shown_finding found solver.new.times))) }
    ensures cut { OnErr result (WasCut wanted.cert (K.state sink.old) (K.state sink.new) (BeginsFrom net.now wanted.turns (λ _. first_event))) }
{
    if net.events() == 0 {
        return Ok(Consistency::Consistent);
    }
    let fallen = greatest_of(solver, net, EventId(0), EventId(0), wanted, sink)?;
    Ok(found_by(fallen, net, solver))
}

// What the solver's answer for the pair of event 0 and event 0 says of the network.
fn found_by(fallen: Fallen, net: &Network, solver: &Falling) -> Consistency
    requires events { 0 < net.now.events }
    requires made { IsMadeFor net.now solver.now }
    requires answers { (turns : ℕ) × (lines : List FallLine)
        × AnswersAs solver.now.negation net.now (asked_of first_event first_event turns) lines solver.now.times solver.now.ray fallen }
    ensures found { result ≡ found_by fallen }
    ensures has { HasFound net.now result }
{
    match fallen {
        Fallen::Closed(_) => Consistency::Consistent,
        Fallen::Inconsistent => Consistency::Inconsistent,
        Fallen::Spent => Consistency::Open,
        Fallen::Unbounded => unreachable!(),
    }
}

// Puts the finding, and after a consistent finding the times of the solver.
fn put_finding<K: Sink>(
    found: Consistency,
    solver: &Falling,
    buffer: &mut LineBuffer,
    sink: &mut K,
) -> Result<(), PutFailed>
    ensures { Puts (K.state sink.old) (K.state sink.new) (finding_text (shown_finding found solver.now.times)) result }
{
    match found {
        Consistency::Consistent => {
            write_item(&Item::Finding(Consistency::Consistent), buffer, sink)?;
            write_item(&Item::Times(solver.times()), buffer, sink)
        }
        Consistency::Inconsistent => {
            write_item(&Item::Finding(Consistency::Inconsistent), buffer, sink)
        }
        Consistency::Open => sink.put(b"finding spent\n"),
    }
}
