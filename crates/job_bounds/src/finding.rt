//! Writing the finding.

ghost use Rattle.std.specs.Prelude.{◌≡◌, ◌<◌, ℕ, ℤ, Bool, [], List, All, IfOk, IfSome, IsSomeAnd};
ghost use Rattle.branch.specs.Work.{IsClose};
ghost use Rattle.event_graph.specs.Satisfying.{Satisfies};
ghost use Rattle.right_report.specs.Right.ReportState.{at_event, behind_finding};
ghost use Rattle.drawn_networks.specs.Drawn.{Drawn};
ghost use Rattle.job_bounds.specs.Step.Witness.{IsRoomFor};
ghost use Rattle.job_bounds.specs.Step.Ready.{AreKnown, IsReady, IsSet, behind_known};
ghost use Rattle.job_bounds.specs.Step.Searched.{printed_known, sized};
ghost use Rattle.job_bounds.specs.Step.Writing.{WritesVerdicts};

use crate::bound_witness::{BoundWitness, take_times};
use crate::desk::Desk;
use crate::search::find_times;
use crate::wanted::Wanted;
use branch::Work;
use event_graph::Network;
use itv_base::{EventId, PutFailed, Sink};
use requirements::Consistency;
use slack_report::{Item, write_item};

/// Looks for times that satisfy a network. Writes the finding and the times, if there are any.
pub fn print_finding<K: Sink>(
    net: &Network,
    wanted: Wanted,
    desk: &mut Desk,
    sink: &mut K,
) -> Result<Consistency, PutFailed>
    requires budget { 0 < wanted.budget }
    requires set { IsSet net.now desk.old }
    ensures ready { IfOk result (λ word. IsReady net.now word desk.new) }
    ensures goes { (times : List ℤ) (drawn : Drawn) (number : ℕ) → times ≡ printed_known desk.new.work.known
        → WritesVerdicts (sized net.now wanted.budget wanted.cert times) drawn (at_event number []) behind_known (λ _. [])
        (K.state sink.old) (K.state sink.new) result }
{
    let found = find_times(&mut desk.work, net, wanted, &mut desk.buffer, sink)?;
    write_item(&Item::Finding(found), &mut desk.buffer, sink)?;
    print_times(found, net, desk, sink)?;
    Ok(found)
}

// Writes the known times after a consistent finding.
fn print_times<K: Sink>(
    word: Consistency,
    net: &Network,
    desk: &mut Desk,
    sink: &mut K,
) -> Result<(), PutFailed>
    requires ready { IsReady net.now word desk.old }
    requires close { IfSome desk.old.work.known (All IsClose) }
    ensures ready { IsReady net.now word desk.new }
    ensures known { desk.new.work.known ≡ desk.old.work.known }
    ensures goes { (most : ℕ) (cert : Bool) (times : List ℤ) (drawn : Drawn) → times ≡ printed_known desk.old.work.known
        → WritesVerdicts (sized net.now most cert times) drawn (behind_finding word) (λ _. behind_known word) (λ _. [])
        (K.state sink.old) (K.state sink.new) result }
{
    match word {
        Consistency::Consistent => {
            take_known(net, &desk.work, &mut desk.greatest);
            write_item(&Item::Times(&desk.greatest.times), &mut desk.buffer, sink)
        }
        Consistency::Inconsistent | Consistency::Open => Ok(()),
    }
}

// Keeps the known times, with event 0 at 0.
fn take_known(net: &Network, work: &Work, kept: &mut BoundWitness)
    requires room { IsRoomFor net.now kept.old }
    requires known { IsSomeAnd work.now.known (λ times. Satisfies times net.now) }
    requires close { IfSome work.now.known (All IsClose) }
    ensures room { IsRoomFor net.now kept.new }
    ensures known { AreKnown net.now kept.new.times.items }
    ensures printed { kept.new.times.items ≡ printed_known work.now.known }
{
    if net.events() > 0 {
        take_times(&mut kept.times, work.known(), EventId(0));
    }
}
