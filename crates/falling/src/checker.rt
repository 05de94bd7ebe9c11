//! The checker of derivations.

ghost use Rattle.std.specs.Prelude.{◌≡◌, ◌<◌, IfOk, OnOk, OnErr, IfErr, length};
ghost use Rattle.event_graph.specs.Network.{Net};
ghost use Rattle.event_graph.specs.Times.{time_of};
ghost use Rattle.falling.specs.declared.line.Reason.TheVariants.{ByEdge, ByLatest};
ghost use Rattle.falling.specs.Checking.{IsBegun, IsCheckFault, IsCheckerFor};
ghost use Rattle.falling.specs.Derivation.{IsLineAllowed, IsEnded, fallen, starting_values};

use crate::check::judge;
use crate::derivation::{ends, lower, start};
use crate::fault::FallCheckFault;
use crate::limits::{Limits, limits_of};
use crate::line::{FallLine, Reason};
use event_graph::Network;
use itv_base::{EdgeName, EventId, NoMemory};
use std::alloc::Global;
use std::marker::Model;

/// Checks the lines of derivations over one network, one after another.
///
/// It is made for a network, and every later call gets the same network. After [`FallChecker::begin`] the source is at 0 and every other event
/// at the cap; each line that is taken lowers the value of an event. No call but `new` takes memory.
#[derive(Drop)]
pub struct FallChecker {
    limits: Limits,
    source: EventId,
    values: Vec<i64>,
    is_ended: bool,
}

impl Model for FallChecker {
    ghost use Rattle.falling.specs.Checking.{FallCheckerView};

    ghost Value = { FallCheckerView };

    ghost view = { λ f. record { limits = f.limits; source = f.source; values = f.values.items; ended = f.is_ended } };
}

impl FallChecker {
    /// A checker for one network. All memory that it will ever need is taken here.
    pub fn new(alloc: Global, net: &Network) -> Result<FallChecker, NoMemory>
        ensures made { IfOk result (λ checker. IsCheckerFor net.now checker) }
    {
        Ok(FallChecker {
            limits: limits_of(net),
            source: EventId(0),
            values: vec![in alloc; 0; net.events() as usize]?,
            is_ended: false,
        })
    }

    /// Begins a derivation from an event, whatever was taken before.
    pub fn begin(&mut self, net: &Network, from: EventId)
        requires made { IsCheckerFor net.now self.old }
        requires from { from.0 < net.now.events }
        ensures begun { IsBegun net.now self.new }
        ensures source { self.new.source ≡ from }
        ensures values { self.new.values ≡ starting_values net.now from }
    {
        start(&mut self.values, from, self.limits);
        self.source = from;
        self.is_ended = false;
    }

    /// Takes a line by which an event falls to a value, in picoseconds, by an always-edge. A line that is refused gives its first fault and
    /// changes nothing.
    pub fn take_fall(
        &mut self,
        net: &Network,
        event: EventId,
        value: i64,
        edge: EdgeName,
    ) -> Result<(), FallCheckFault>
        requires begun { IsBegun net.now self.old }
        requires event { event.0 < net.now.events }
        ensures allowed { OnOk result (IsLineAllowed net.now self.old.values
            (record { event = event; value = value; reason = ByEdge edge })) }
        ensures before_end { OnOk result (IsEnded net.now self.old.source self.old.values → ⊥) }
        ensures values { OnOk result (self.new.values ≡ fallen self.old.values
            (record { event = event; value = value; reason = ByEdge edge })) }
        ensures source { self.new.source ≡ self.old.source }
        ensures begun { IsBegun net.now self.new }
        ensures fault { IfErr result (IsCheckFault net.now self.old.source self.old.values
            (record { event = event; value = value; reason = ByEdge edge })) }
        ensures unchanged { OnErr result (self.new ≡ self.old) }
    {
        self.take(
            net,
            FallLine {
                event,
                value,
                reason: Reason::ByEdge(edge),
            },
        )
    }

    /// Takes a line by which an event falls to a value, in picoseconds, by the latest constraint of a number. A line that is refused gives its
    /// first fault and changes nothing.
    pub fn take_late(
        &mut self,
        net: &Network,
        event: EventId,
        value: i64,
        constraint: u32,
    ) -> Result<(), FallCheckFault>
        requires begun { IsBegun net.now self.old }
        requires event { event.0 < net.now.events }
        ensures allowed { OnOk result (IsLineAllowed net.now self.old.values
            (record { event = event; value = value; reason = ByLatest constraint })) }
        ensures before_end { OnOk result (IsEnded net.now self.old.source self.old.values → ⊥) }
        ensures values { OnOk result (self.new.values ≡ fallen self.old.values
            (record { event = event; value = value; reason = ByLatest constraint })) }
        ensures source { self.new.source ≡ self.old.source }
        ensures begun { IsBegun net.now self.new }
        ensures fault { IfErr result (IsCheckFault net.now self.old.source self.old.values
            (record { event = event; value = value; reason = ByLatest constraint })) }
        ensures unchanged { OnErr result (self.new ≡ self.old) }
    {
        self.take(
            net,
            FallLine {
                event,
                value,
                reason: Reason::ByLatest(constraint),
            },
        )
    }

    // Takes a line that is allowed. A line that is refused gives its first fault and changes nothing.
    fn take(&mut self, net: &Network, line: FallLine) -> Result<(), FallCheckFault>
        requires begun { IsBegun net.now self.old }
        requires event { line.event.0 < net.now.events }
        ensures allowed { OnOk result (IsLineAllowed net.now self.old.values line) }
        ensures before_end { OnOk result (IsEnded net.now self.old.source self.old.values → ⊥) }
        ensures values { OnOk result (self.new.values ≡ fallen self.old.values line) }
        ensures source { self.new.source ≡ self.old.source }
        ensures begun { IsBegun net.now self.new }
        ensures fault { IfErr result (IsCheckFault net.now self.old.source self.old.values line) }
        ensures unchanged { OnErr result (self.new ≡ self.old) }
    {
        prove!(net.events() as usize == self.values.len());
        if self.is_ended {
            return Err(FallCheckFault::AfterEnd);
        }
        if let Err(fault) = judge(net, &self.values, line) {
            return Err(fault);
        }
        lower(&mut self.values, line);
        self.is_ended = ends(line, self.source, self.limits);
        Ok(())
    }

    /// The value of an event, in picoseconds.
    pub fn value(&self, event: EventId) -> i64
        requires event { event.0 < length self.now.values }
        ensures value { result ≡ time_of self.now.values event }
    {
        self.values[event.0 as usize]
    }

    /// Whether the derivation has ended.
    pub fn is_ended(&self) -> bool
        ensures ended { result ≡ self.now.ended }
    {
        self.is_ended
    }
}
