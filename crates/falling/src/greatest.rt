//! The greatest separation of a pair of events of a plain network.

ghost use Rattle.std.specs.Prelude.{◌≡◌, ◌<◌, ◌≤◌, ◌≤ℤ◌, ◌<ℤ◌, ℕ, ℤ, List, IsTrue, IsFalse, OnErr, IfOk, length};
ghost use Rattle.itv_base.specs.declared.names.EventId.{EventId};
ghost use Rattle.itv_base.specs.Outside.{FaultCounted};
ghost use Rattle.event_graph.specs.Times.{time_of};
ghost use Rattle.falling.specs.declared.answer.Fallen.TheVariants.{Closed};
ghost use Rattle.falling.specs.declared.line.FallLine.{FallLine};
ghost use Rattle.falling.specs.Agenda.{IsAgendaFor};
ghost use Rattle.falling.specs.DerivationEnds.{AreLimits};
ghost use Rattle.falling.specs.Step.DerivationEnds.{HasSettled};
ghost use Rattle.falling.specs.Derivation.{IsDerivation};
ghost use Rattle.falling.specs.Fallen.{IsFallenAnswer, asked_of};
ghost use Rattle.falling.specs.Kinds.{IsPlain};
ghost use Rattle.falling.specs.Step.Rays.{HaveAbove};

use crate::answer::{CountedAnswer, Fallen};
use crate::asked::Asked;
use crate::derivation::{DerivationEnd, derive};
use crate::fall_scribe::{FallScribe, FallScribeFailed};
use crate::gap::{Level, gap_level};
use crate::guide::Guide;
use crate::limits::Limits;
use event_graph::Network;
use itv_base::EventId;

/// The greatest separation of a pair over a plain network, by a derivation of at most so many lines. The values of a closed answer are times
/// that attain it. The values and the ray of an unbounded answer show that it is unbounded.
pub fn greatest<N: FallScribe>(
    net: &Network,
    guide: &mut Guide,
    asked: Asked,
    values: &mut [i64],
    ray: &mut [bool],
    scribe: &mut N,
) -> Result<CountedAnswer, FallScribeFailed>
    requires plain { IsPlain net.now }
    requires from { asked.from.0 < net.now.events }
    requires to { asked.to.0 < net.now.events }
    requires count { length values.old ≡ net.now.events }
    requires ray { length ray.old ≡ net.now.events }
    requires limits { AreLimits net.now guide.old.limits }
    requires agenda { IsAgendaFor net.now guide.old.agenda }
    ensures lines { IfOk result (λ counted. (lines : List FallLine) × N.Grew scribe.old lines scribe.new
        × (length lines ≡ counted.turns)
        × IsFallenAnswer net.now asked lines values.new ray.new counted.fallen) }
    ensures most { IfOk result (λ counted. counted.turns ≤ asked.turns) }
    ensures cut { OnErr result ((lines : List FallLine) × N.WasCut scribe.old lines scribe.new
        × (length lines ≤ asked.turns) × (after : List ℤ) × IsDerivation net.now asked.from lines after) }
    ensures rose { OnErr result (FaultCounted (N.faults scribe.old) (N.faults scribe.new)) }
    ensures values { length values.new ≡ length values.old }
    ensures ray { length ray.new ≡ length ray.old }
    ensures limits { guide.new.limits ≡ guide.old.limits }
    ensures agenda { IsAgendaFor net.now guide.new.agenda }
{
    prove!(net.events() as usize == values.len());
    let descent = match derive(
        net,
        asked.from,
        guide.limits,
        asked.turns,
        &mut guide.agenda,
        values,
        scribe,
    ) {
        Ok(descent) => descent,
        Err(failed) => return Err(failed),
    };
    let fallen = match descent.end {
        DerivationEnd::Settled => settled(net, asked.to, guide.limits, values, ray),
        DerivationEnd::Ended => Fallen::Inconsistent,
        DerivationEnd::Spent => Fallen::Spent,
    };
    Ok(CountedAnswer {
        fallen,
        turns: descent.turns,
    })
}

// The answer about settled values. The pair is closed where its value is below the far line. From the far line on the pair is unbounded, and the
// ray has the events beyond a gap.
fn settled(net: &Network, to: EventId, limits: Limits, values: &[i64], ray: &mut [bool]) -> Fallen
    requires plain { IsPlain net.now }
    requires to { to.0 < net.now.events }
    requires count { length values.now ≡ net.now.events }
    requires ray { length ray.old ≡ net.now.events }
    requires limits { AreLimits net.now limits }
    ensures answers { (from : EventId) (turns : ℕ) (lines : List FallLine) → from.0 < net.now.events
        → HasSettled net.now from turns lines values.now
        → IsFallenAnswer net.now (asked_of from to turns) lines values.now ray.new result }
    ensures ray { length ray.new ≡ length ray.old }
{
    prove!(net.events() as usize == values.len());
    if !is_far(values, to, limits) {
        return closed_at(values, to);
    }
    let level = gap_level(net, values, limits);
    mark_above(values, level, ray);
    Fallen::Unbounded
}

// Marks the events whose values are above a level.
fn mark_above(values: &[i64], level: Level, ray: &mut [bool])
    requires { length ray.old ≡ length values.now }
    ensures { HaveAbove level.value values.now ray.new }
{
    for event in 0..values.len() {
        ray[event] = level.value < values[event];
    }
}

// The answer that the greatest separation of a pair is the value of its to-event.
fn closed_at(values: &[i64], event: EventId) -> Fallen
    requires { event.0 < length values.now }
    ensures { result ≡ Closed (time_of values.now event) }
{
    Fallen::Closed(values[event.0 as usize])
}

// Whether a value is at least the far line.
fn is_far(values: &[i64], event: EventId, limits: Limits) -> bool
    requires { event.0 < length values.now }
    ensures near { IsFalse result → time_of values.now event <ℤ limits.far }
    ensures far { IsTrue result → limits.far ≤ℤ time_of values.now event }
{
    limits.far <= values[event.0 as usize]
}
