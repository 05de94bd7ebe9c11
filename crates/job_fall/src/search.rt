//! Searches by falling values. Their lines are printed if they are wanted.

ghost use Rattle.std.specs.Prelude.{◌≡◌, ◌<◌, ◌≤◌, List, IfOk, OnErr, true, ℤ, length};
ghost use Rattle.falling.specs.declared.line.FallLine.{FallLine};
ghost use Rattle.falling.specs.Fallen.{asked_of};
ghost use Rattle.falling.specs.Solving.{AnswersAs, IsDerivationAs, IsMadeFor};
ghost use Rattle.job_fall.specs.Step.{WroteDerivation, WasCut};

use crate::sink_fall_scribe::SinkFallScribe;
use crate::wanted::Wanted;
use event_graph::Network;
use falling::{FallScribeFailed, Fallen, Falling, QuietFall};
use itv_base::{EventId, PutFailed, Sink};

/// Finds the greatest separation of a pair of events. Prints the lines of its derivation if they are wanted.
pub fn greatest_of<K: Sink>(
    solver: &mut Falling,
    net: &Network,
    from: EventId,
    to: EventId,
    wanted: Wanted,
    sink: &mut K,
) -> Result<Fallen, PutFailed>
    requires made { IsMadeFor net.now solver.old }
    requires from { from.0 < net.now.events }
    requires to { to.0 < net.now.events }
    ensures made { IsMadeFor net.now solver.new }
    ensures negation { solver.new.negation ≡ solver.old.negation }
    ensures answers { IfOk result (λ fallen. WroteDerivation wanted.cert (K.state sink.old) (K.state sink.new)
        (λ lines. (length lines ≤ wanted.turns)
        × AnswersAs solver.old.negation net.now (asked_of from to wanted.turns) lines solver.new.times solver.new.ray fallen)) }
    ensures cut { OnErr result (WasCut wanted.cert (K.state sink.old) (K.state sink.new)
        (λ lines. (length lines ≤ wanted.turns) × (after : List ℤ) × IsDerivationAs solver.old.negation net.now from to lines after)) }
{
    if wanted.cert {
        greatest_printing(solver, net, from, to, wanted.turns, sink)
    } else {
        Ok(greatest_quietly(solver, net, from, to, wanted.turns))
    }
}

// Finds the greatest separation and prints the lines.
fn greatest_printing<K: Sink>(
    solver: &mut Falling,
    net: &Network,
    from: EventId,
    to: EventId,
    turns: u64,
    sink: &mut K,
) -> Result<Fallen, PutFailed>
    requires made { IsMadeFor net.now solver.old }
    requires from { from.0 < net.now.events }
    requires to { to.0 < net.now.events }
    ensures made { IsMadeFor net.now solver.new }
    ensures negation { solver.new.negation ≡ solver.old.negation }
    ensures answers { IfOk result (λ fallen. WroteDerivation true (K.state sink.old) (K.state sink.new)
        (λ lines. (length lines ≤ turns)
        × AnswersAs solver.old.negation net.now (asked_of from to turns) lines solver.new.times solver.new.ray fallen)) }
    ensures cut { OnErr result (WasCut true (K.state sink.old) (K.state sink.new)
        (λ lines. (length lines ≤ turns) × (after : List ℤ) × IsDerivationAs solver.old.negation net.now from to lines after)) }
{
    let mut notes = SinkFallScribe { sink };
    match solver.greatest(net, from, to, turns, &mut notes) {
        Ok(fallen) => Ok(fallen),
        Err(FallScribeFailed) => Err(PutFailed),
    }
}

// Finds the greatest separation and prints nothing.
fn greatest_quietly(
    solver: &mut Falling,
    net: &Network,
    from: EventId,
    to: EventId,
    turns: u64,
) -> Fallen
    requires made { IsMadeFor net.now solver.old }
    requires from { from.0 < net.now.events }
    requires to { to.0 < net.now.events }
    ensures made { IsMadeFor net.now solver.new }
    ensures negation { solver.new.negation ≡ solver.old.negation }
    ensures answers { (lines : List FallLine) × (length lines ≤ turns)
        × AnswersAs solver.old.negation net.now (asked_of from to turns) lines solver.new.times solver.new.ray result }
{
    match solver.greatest(net, from, to, turns, &mut QuietFall) {
        Ok(fallen) => fallen,
        Err(FallScribeFailed) => unreachable!(),
    }
}
