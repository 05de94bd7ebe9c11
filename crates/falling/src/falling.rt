//! The solver.

ghost use Rattle.std.specs.Prelude.{◌≡◌, ◌<◌, ◌≤◌, ℤ, List, All, IfOk, OnOk, OnErr, map, neg_ℤ, not, pos, set, slice_index_or, length};
ghost use Rattle.itv_base.specs.Outside.{FaultCounted};
ghost use Rattle.event_graph.specs.Network.{Net};
ghost use Rattle.falling.specs.declared.line.FallLine.{FallLine};
ghost use Rattle.falling.specs.Agenda.{IsAgendaFor};
ghost use Rattle.falling.specs.Cap.{IsNearValue, enough_limit, enough_turns};
ghost use Rattle.falling.specs.DerivationEnds.{AreLimits};
ghost use Rattle.falling.specs.Derivation.{IsDerivation};
ghost use Rattle.falling.specs.Kinds.{negated, negated_times};
ghost use Rattle.falling.specs.Step.Kinds.{IsNegatable};
ghost use Rattle.falling.specs.Fallen.{asked_of};
ghost use Rattle.falling.specs.Solving.{AnswersAs, AnswersByNegation, IsDerivationAs, IsMadeFor, IsNegationOf, solved};
ghost use Rattle.falling.specs.View.{IsViewOf};

use crate::agenda::Agenda;
use crate::answer::{CountedAnswer, Fallen};
use crate::asked::Asked;
use crate::fall_scribe::{FallScribe, FallScribeFailed};
use crate::greatest::greatest;
use crate::guide::Guide;
use crate::limits::{Limits, limits_of};
use crate::negation::negation_of;
use crate::view::View;
use event_graph::Network;
use itv_base::{EventId, NoMemory};
use std::alloc::Global;
use std::marker::Model;

/// Finds greatest separations over one network whose choices are all of one kind.
///
/// It is made for a network, and every later call gets the same network. A network that is not plain is solved by its negation: the pair is
/// reversed, and the times are negated. No call but `new` takes memory.
#[derive(Drop)]
pub struct Falling {
    negation: Option<Network>,
    enough: u128,
    guide: Guide,
    times: Vec<i64>,
    ray: Vec<bool>,
    turns: u64,
}

impl Model for Falling {
    ghost use Rattle.falling.specs.Fallen.{asked_of};
    ghost use Rattle.falling.specs.Solving.{FallingView};

    ghost Value = { FallingView };

    ghost view = { λ f. record { negation = f.negation; limits = f.guide.limits; enough = f.enough; agenda = f.guide.agenda; times = f.times.items; ray = f.ray.items; turns = f.turns } };
}

impl Falling {
    /// A solver for a network of a view, or `NoMemory`. Takes all the memory that is ever needed.
    pub fn new(alloc: Global, net: &Network, view: View) -> Result<Falling, NoMemory>
        requires view { IsViewOf net.now view }
        ensures made { IfOk result (λ falling. IsMadeFor net.now falling) }
    {
        let negation = negation_for(alloc, net, view)?;
        let agenda = agenda_for(alloc, net, &negation)?;
        let limits = limits_of(net);
        let count = net.events() as usize;
        Ok(Falling {
            negation,
            enough: enough_for(net, limits),
            guide: Guide { limits, agenda },
            times: vec![in alloc; 0; count]?,
            ray: vec![in alloc; false; count]?,
            turns: 0,
        })
    }

    /// A number of turns with which no answer is [`Fallen::Spent`].
    pub fn enough(&self) -> u128
        ensures enough { result ≡ self.now.enough }
    {
        self.enough
    }

    /// The greatest separation of a pair of events, in picoseconds, by a derivation of at most so many lines, which are noted. Over a plain
    /// network it is a derivation from the from-event. Otherwise it is a derivation in the negation from the to-event.
    pub fn greatest<N: FallScribe>(
        &mut self,
        net: &Network,
        from: EventId,
        to: EventId,
        turns: u64,
        scribe: &mut N,
    ) -> Result<Fallen, FallScribeFailed>
        requires made { IsMadeFor net.now self.old }
        requires from { from.0 < net.now.events }
        requires to { to.0 < net.now.events }
        ensures lines { IfOk result (λ fallen. (lines : List FallLine) × N.Grew scribe.old lines scribe.new
            × (length lines ≡ self.new.turns)
            × AnswersAs self.old.negation net.now (asked_of from to turns) lines self.new.times self.new.ray fallen) }
        ensures most { OnOk result (self.new.turns ≤ turns) }
        ensures cut { OnErr result ((lines : List FallLine) × N.WasCut scribe.old lines scribe.new
            × (length lines ≤ turns) × (after : List ℤ) × IsDerivationAs self.old.negation net.now from to lines after) }
        ensures rose { OnErr result (FaultCounted (N.faults scribe.old) (N.faults scribe.new)) }
        ensures made { IsMadeFor net.now self.new }
        ensures negation { self.new.negation ≡ self.old.negation }
    {
        let asked = Asked { from, to, turns };
        let counted = solve(
            net,
            &self.negation,
            &mut self.guide,
            asked,
            &mut self.times,
            &mut self.ray,
            scribe,
        );
        match counted {
            Ok(counted) => {
                self.turns = counted.turns;
                Ok(counted.fallen)
            }
            Err(failed) => Err(failed),
        }
    }

    /// The times of the last answer, in picoseconds, one per event. After [`Fallen::Closed`] they satisfy and attain the separation. After
    /// [`Fallen::Unbounded`] they satisfy.
    pub fn times(&self) -> &[i64]
        ensures times { result.now ≡ self.now.times }
    {
        &self.times
    }

    /// The ray of the last answer, after [`Fallen::Unbounded`]: a flag for each event, which says whether it can
    /// be raised from the times without end.
    pub fn ray(&self) -> &[bool]
        ensures ray { result.now ≡ self.now.ray }
    {
        &self.ray
    }

    /// The number of lines of the last answer's derivation.
    pub fn turns(&self) -> u64
        ensures turns { result ≡ self.now.turns }
    {
        self.turns
    }
}

// The negation of a network, if that is its view.
fn negation_for(alloc: Global, net: &Network, view: View) -> Result<Option<Network>, NoMemory>
    requires view { IsViewOf net.now view }
    ensures negation { IfOk result (IsNegationOf net.now) }
{
    match view {
        View::Plain => Ok(None),
        View::Negated => Ok(Some(negation_of(alloc, net)?)),
    }
}

// The agenda for the network that is solved.
fn agenda_for(alloc: Global, net: &Network, negation: &Option<Network>) -> Result<Agenda, NoMemory>
    ensures { IfOk result (IsAgendaFor (solved net.now negation.now)) }
{
    match negation {
        None => Agenda::new(alloc, net),
        Some(negation) => Agenda::new(alloc, negation),
    }
}

// A number of turns in which every derivation ends or settles.
fn enough_for(net: &Network, limits: Limits) -> u128
    requires limits { AreLimits net.now limits }
    ensures enough { result ≡ enough_turns net.now }
    ensures most { result ≤ enough_limit }
{
    let events = net.events() as u128;
    events * (limits.cap as u128 + limits.far as u128 + 1)
}

// The greatest separation of a pair, by the negation of the network where there is one.
fn solve<N: FallScribe>(
    net: &Network,
    negation: &Option<Network>,
    guide: &mut Guide,
    asked: Asked,
    times: &mut [i64],
    ray: &mut [bool],
    scribe: &mut N,
) -> Result<CountedAnswer, FallScribeFailed>
    requires negation { IsNegationOf net.now negation.now }
    requires from { asked.from.0 < net.now.events }
    requires to { asked.to.0 < net.now.events }
    requires count { length times.old ≡ net.now.events }
    requires ray { length ray.old ≡ net.now.events }
    requires limits { AreLimits net.now guide.old.limits }
    requires agenda { IsAgendaFor (solved net.now negation.now) guide.old.agenda }
    ensures lines { IfOk result (λ counted. (lines : List FallLine) × N.Grew scribe.old lines scribe.new
        × (length lines ≡ counted.turns)
        × AnswersAs negation.now net.now asked lines times.new ray.new counted.fallen) }
    ensures most { IfOk result (λ counted. counted.turns ≤ asked.turns) }
    ensures cut { OnErr result ((lines : List FallLine) × N.WasCut scribe.old lines scribe.new
        × (length lines ≤ asked.turns) × (after : List ℤ) × IsDerivationAs negation.now net.now asked.from asked.to lines after) }
    ensures rose { OnErr result (FaultCounted (N.faults scribe.old) (N.faults scribe.new)) }
    ensures times { length times.new ≡ length times.old }
    ensures ray { length ray.new ≡ length ray.old }
    ensures limits { guide.new.limits ≡ guide.old.limits }
    ensures agenda { IsAgendaFor (solved net.now negation.now) guide.new.agenda }
{
    match negation {
        None => greatest(net, guide, asked, times, ray, scribe),
        Some(negation) => greatest_by_negation(net, negation, guide, asked, times, ray, scribe),
    }
}

// The greatest separation of a pair of a network by its negation, where the pair is reversed.
fn greatest_by_negation<N: FallScribe>(
    net: &Network,
    negation: &Network,
    guide: &mut Guide,
    asked: Asked,
    times: &mut [i64],
    ray: &mut [bool],
    scribe: &mut N,
) -> Result<CountedAnswer, FallScribeFailed>
    requires negation { negation.now ≡ negated net.now }
    requires negatable { IsNegatable net.now }
    requires from { asked.from.0 < net.now.events }
    requires to { asked.to.0 < net.now.events }
    requires count { length times.old ≡ net.now.events }
    requires ray { length ray.old ≡ net.now.events }
    requires limits { AreLimits net.now guide.old.limits }
    requires agenda { IsAgendaFor negation.now guide.old.agenda }
    ensures lines { IfOk result (λ counted. (lines : List FallLine) × N.Grew scribe.old lines scribe.new
        × (length lines ≡ counted.turns)
        × AnswersByNegation net.now asked lines times.new ray.new counted.fallen) }
    ensures most { IfOk result (λ counted. counted.turns ≤ asked.turns) }
    ensures cut { OnErr result ((lines : List FallLine) × N.WasCut scribe.old lines scribe.new
        × (length lines ≤ asked.turns) × (after : List ℤ) × IsDerivation (negated net.now) asked.to lines after) }
    ensures rose { OnErr result (FaultCounted (N.faults scribe.old) (N.faults scribe.new)) }
    ensures times { length times.new ≡ length times.old }
    ensures ray { length ray.new ≡ length ray.old }
    ensures limits { guide.new.limits ≡ guide.old.limits }
    ensures agenda { IsAgendaFor negation.now guide.new.agenda }
{
    let events = net.events();
    prove!(negation.events() == events);
    let turned = Asked {
        from: asked.to,
        to: asked.from,
        turns: asked.turns,
    };
    let counted = match greatest(negation, guide, turned, times, ray, scribe) {
        Ok(counted) => counted,
        Err(failed) => return Err(failed),
    };
    match counted.fallen {
        Fallen::Closed(_) | Fallen::Unbounded => turn_round(times, ray),
        Fallen::Inconsistent | Fallen::Spent => {}
    }
    Ok(counted)
}

// Turns an answer of a negation round: each time becomes its negative, and the other events are raised.
fn turn_round(times: &mut [i64], ray: &mut [bool])
    requires near { All IsNearValue times.old }
    ensures times { times.new ≡ negated_times times.old }
    ensures ray { ray.new ≡ map not ray.old }
{
    negate(times);
    complement(ray);
}

// Makes each time its negative.
fn negate(times: &mut [i64])
    requires near { All IsNearValue times.old }
    ensures { times.new ≡ negated_times times.old }
{
    for event in 0..times.len() {
        negate_at(times, event);
    }
}

// Makes the time of one event its negative.
fn negate_at(times: &mut [i64], event: usize)
    requires event { event < length times.old }
    requires near { IsNearValue (slice_index_or times.old event (pos 0)) }
    ensures { times.new ≡ set times.old event (neg_ℤ (slice_index_or times.old event (pos 0))) }
{
    times[event] = -times[event];
}

// Makes each flag its opposite.
fn complement(flags: &mut [bool])
    ensures { flags.new ≡ map not flags.old }
{
    for event in 0..flags.len() {
        flags[event] = !flags[event];
    }
}
