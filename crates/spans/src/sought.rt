//! Numbers whose span is sought.

ghost use Rattle.std.specs.Prelude.{◌≡◌, ◌≤◌, ℤ, IfOk, IfSome, IsTrue};
ghost use Rattle.drawn_networks.specs.Drawn.{Drawn};
ghost use Rattle.extremes.specs.Ready.{AreTurnsOf};
ghost use Rattle.moves.specs.Networks.{IsNetFound};
ghost use Rattle.moves.specs.Passing.{NoneBreaks, Passes};
ghost use Rattle.spans.specs.Step.{AreEventCounts, IsFrameFound, IsInside, IsInterval, IsProbeOf, IsWithinReach, IsSought, IsValueFound, IsValueFoundAt, MeetsAim, TellsConsistency, at_value, breaks_for, consistency_of, passes_for};

use crate::direction::{Value, drawn_value, is_same};
use crate::frame::frame_of;
use crate::framed_range::FrameKind;
use crate::interval::Interval;
use crate::reach::ShiftReach;
use drawn_networks::DrawnNetwork;
use drawn_numbers::DrawnNumber;
use extremes::RunTurns;
use itv_base::NoMemory;
use moves::{Move, NetFound, moved_network, moved_rows};
use probing::{Probed, SideChain, Step, excess, probe, room};
use std::alloc::Global;

/// Numbers whose span is sought, how many values each event counts from, as many zeros, the last values that can be drawn, and how long each search may go
/// on.
#[derive(Clone, Copy)]
pub struct SpanSought<'a> {
    pub drawn: &'a DrawnNetwork,
    pub numbers: &'a [&'a DrawnNumber],
    pub counts: &'a [i64],
    pub zeros: &'a [i64],
    pub reach: ShiftReach,
    pub budget: u64,
}

/// What is to be shown of values.
#[derive(Clone, Copy)]
pub enum SpanAim {
    /// No requirement breaks.
    Passing,
    /// Not every requirement passes.
    Failing,
}

/// What is found of a value.
#[derive(Clone, Copy)]
pub enum ValueFound {
    /// It is as was to be shown.
    Shown,
    /// This was found instead.
    Stops(NetFound),
    /// The search was left open.
    Left,
}

impl SpanSought<'_> {
    /// What is found of the network with the numbers moved up by a number of picoseconds.
    pub fn probe_at(
        &self,
        alloc: Global,
        at: Value,
        turns: &mut RunTurns,
    ) -> Result<Probed, NoMemory>
        requires sought { IsSought self.now }
        requires reached { IsWithinReach self.now at.by }
        ensures probed { IfOk result (IsProbeOf self.now at.by) }
        ensures turns { AreTurnsOf turns.old turns.new }
    {
        if is_same(at, drawn_value()) {
            let rows = self.drawn.rows().as_slice();
            return probe(alloc, self.drawn.network(), rows, self.budget, turns);
        }
        let by = Move::Shift(at.by);
        match moved_network(alloc, self.drawn, self.numbers, by)? {
            None => unreachable!(),
            Some(net) => match moved_rows(alloc, self.drawn, self.numbers, by)? {
                None => unreachable!(),
                Some(rows) => probe(alloc, &net, &rows, self.budget, turns),
            },
        }
    }

    /// What is found of a value by itself.
    pub fn value_at(
        &self,
        alloc: Global,
        aim: SpanAim,
        at: Value,
        turns: &mut RunTurns,
    ) -> Result<ValueFound, NoMemory>
        requires sought { IsSought self.now }
        requires reached { IsWithinReach self.now at.by }
        ensures found { IfOk result (IsValueFoundAt self.now aim at.by) }
        ensures turns { AreTurnsOf turns.old turns.new }
    {
        let probed = self.probe_at(alloc, at, turns)?;
        Ok(value_of(aim, probed.found))
    }

    /// Whether some times satisfy with a value, or `None` if that was left open.
    pub fn consistency_at(
        &self,
        alloc: Global,
        at: Value,
        turns: &mut RunTurns,
    ) -> Result<Option<bool>, NoMemory>
        requires sought { IsSought self.now }
        requires reached { IsWithinReach self.now at.by }
        ensures consistency { IfOk result (TellsConsistency self.now at.by) }
        ensures turns { AreTurnsOf turns.old turns.new }
    {
        let probed = self.probe_at(alloc, at, turns)?;
        Ok(consistency_of(probed.found))
    }

    /// Whether a frame shows all values of an interval: one in which events count from values, or else one in which none does.
    pub fn is_shown(
        &self,
        alloc: Global,
        aim: SpanAim,
        interval: Interval,
        turns: &mut RunTurns,
    ) -> Result<bool, NoMemory>
        requires sought { IsSought self.now }
        requires interval { IsInterval interval }
        ensures shown { IfOk result (λ shown. IsTrue shown → (value : ℤ) → IsInside interval value → MeetsAim aim (at_value self.now value)) }
        ensures turns { AreTurnsOf turns.old turns.new }
    {
        if self.is_shown_by(alloc, self.counts, aim, interval, turns)? {
            return Ok(true);
        }
        self.is_shown_by(alloc, self.zeros, aim, interval, turns)
    }

    // Whether a frame shows all values of an interval, where each event counts from so many values.
    fn is_shown_by(
        &self,
        alloc: Global,
        counts: &[i64],
        aim: SpanAim,
        interval: Interval,
        turns: &mut RunTurns,
    ) -> Result<bool, NoMemory>
        requires counts { AreEventCounts self.now.drawn.now.net counts.now }
        requires interval { IsInterval interval }
        requires budget { 1 ≤ self.now.budget }
        ensures shown { IfOk result (λ shown. IsTrue shown → (value : ℤ) → IsInside interval value → MeetsAim aim (at_value self.now value)) }
        ensures turns { AreTurnsOf turns.old turns.new }
    {
        match aim {
            SpanAim::Passing => self.is_covered_by(alloc, counts, interval, turns),
            SpanAim::Failing => self.fails_by(alloc, counts, interval, turns),
        }
    }

    // Whether a cover shows that no requirement breaks with any value of an interval, where each event counts from so many values.
    fn is_covered_by(
        &self,
        alloc: Global,
        counts: &[i64],
        interval: Interval,
        turns: &mut RunTurns,
    ) -> Result<bool, NoMemory>
        requires counts { AreEventCounts self.now.drawn.now.net counts.now }
        requires interval { IsInterval interval }
        requires budget { 1 ≤ self.now.budget }
        ensures covered { IfOk result (λ covered. IsTrue covered → (value : ℤ) → IsInside interval value → NoneBreaks (at_value self.now value)) }
        ensures turns { AreTurnsOf turns.old turns.new }
    {
        match self.probe_frame(alloc, counts, interval, FrameKind::Cover, turns)? {
            Some(NetFound::Passes) => Ok(true),
            Some(NetFound::Inconsistent) => Ok(true),
            _ => Ok(false),
        }
    }

    // Whether a core shows that a row breaks with each value of an interval, or a cover that the rules contradict each other with each.
    fn fails_by(
        &self,
        alloc: Global,
        counts: &[i64],
        interval: Interval,
        turns: &mut RunTurns,
    ) -> Result<bool, NoMemory>
        requires counts { AreEventCounts self.now.drawn.now.net counts.now }
        requires interval { IsInterval interval }
        requires budget { 1 ≤ self.now.budget }
        ensures fails { IfOk result (λ fails. IsTrue fails → (value : ℤ) → IsInside interval value → Passes (at_value self.now value) → ⊥) }
        ensures turns { AreTurnsOf turns.old turns.new }
    {
        if let Some(NetFound::Breaks(_)) = self.probe_frame(
            alloc,
            counts,
            interval,
            FrameKind::Core,
            turns,
        )? {
            return Ok(true);
        }
        match self.probe_frame(alloc, counts, interval, FrameKind::Cover, turns)? {
            Some(NetFound::Inconsistent) => Ok(true),
            _ => Ok(false),
        }
    }

    // What is found of a frame of an interval, where each event counts from so many values; or `None` if it can't be drawn.
    fn probe_frame(
        &self,
        alloc: Global,
        counts: &[i64],
        interval: Interval,
        kind: FrameKind,
        turns: &mut RunTurns,
    ) -> Result<Option<NetFound>, NoMemory>
        requires counts { AreEventCounts self.now.drawn.now.net counts.now }
        requires interval { IsInterval interval }
        requires budget { 1 ≤ self.now.budget }
        ensures found { IfOk result (λ found. IfSome found (IsFrameFound self.now interval kind)) }
        ensures turns { AreTurnsOf turns.old turns.new }
    {
        let framed = frame_of(alloc, self.drawn, self.numbers, counts, interval, kind)?;
        let Some(frame) = framed else {
            return Ok(None);
        };
        let probed = probe(alloc, &frame.net, &frame.rows, self.budget, turns)?;
        Ok(Some(probed.found))
    }

    /// How far the numbers may be moved, according to the edges behind the bounds: a guess.
    pub fn room(&self, step: Step, sides: &[SideChain]) -> Option<i64> {
        room(self.drawn, self.numbers, step, sides)
    }

    /// How far the numbers should be moved for a row that breaks to pass: a guess.
    pub fn excess(&self, step: Step, sides: &[SideChain]) -> Option<i64> {
        excess(self.drawn, self.numbers, step, sides)
    }
}

// What is found of a value, according to what is found of the network there.
fn value_of(aim: SpanAim, found: NetFound) -> ValueFound
    ensures { (drawn : Drawn) → IsNetFound drawn found → IsValueFound aim drawn found result }
{
    match found {
        NetFound::Passes => passes_for(aim),
        NetFound::Breaks(row) => breaks_for(aim, row),
        NetFound::Inconsistent => ValueFound::Shown,
        NetFound::Open | NetFound::Spent => ValueFound::Left,
    }
}

// What is found of a value with which every requirement passes.
fn passes_for(aim: SpanAim) -> ValueFound
    ensures { result ≡ passes_for aim }
{
    match aim {
        SpanAim::Passing => ValueFound::Shown,
        SpanAim::Failing => ValueFound::Stops(NetFound::Passes),
    }
}

// What is found of a value with which a row breaks.
fn breaks_for(aim: SpanAim, row: u32) -> ValueFound
    ensures { result ≡ breaks_for aim row }
{
    match aim {
        SpanAim::Passing => ValueFound::Stops(NetFound::Breaks(row)),
        SpanAim::Failing => ValueFound::Shown,
    }
}

// Whether some times satisfy a network, according to what is found of it; or `None` if that was left open.
fn consistency_of(found: NetFound) -> Option<bool>
    ensures { result ≡ consistency_of found }
{
    match found {
        NetFound::Passes | NetFound::Breaks(_) | NetFound::Open => Some(true),
        NetFound::Inconsistent => Some(false),
        NetFound::Spent => None,
    }
}
