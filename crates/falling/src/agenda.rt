//! Which constraints are to be looked at.

ghost use Rattle.std.specs.Prelude.{◌≡◌, ◌<◌, ◌*◌, ℕ, ℤ, ◌<ℤ◌, List, All, IfOk, IfSome, IfNone, length, set};
ghost use Rattle.event_graph.specs.Network.{IsNet, Net};
ghost use Rattle.event_graph.specs.Times.{time_of};
ghost use Rattle.event_graph.specs.EventLists.{at_event};
ghost use Rattle.falling.specs.Agenda.{IsAgendaFor};
ghost use Rattle.falling.specs.Step.Agenda.{AreOthersTried};
ghost use Rattle.falling.specs.Derivation.{IsLineAllowed, IsFixedPoint};
ghost use Rattle.falling.specs.Step.Turns.{IsTurnLine};
ghost use Rattle.falling.specs.Cap.{IsNearValue};

use crate::followers::followers;
use crate::line::FallLine;
use crate::pending_flags::{PendingFlags, insert_all};
use crate::turn::next_line;
use event_graph::{ByEvent, Network};
use itv_base::{EventId, MAX_EVENTS, NoMemory};
use std::alloc::Global;
use std::marker::Model;

/// A flag for each constraint that may be able to lower a value, and the constraints that follow each event.
#[derive(Drop)]
pub struct Agenda {
    followers: ByEvent<u32>,
    pending: PendingFlags,
}

impl Model for Agenda {
    ghost use Rattle.falling.specs.Agenda.{Agenda};

    ghost Value = { Agenda };

    ghost view = { λ a. record { followers = a.followers; pending = a.pending } };
}

impl Agenda {
    /// An agenda for a network. Takes all the memory that is ever needed.
    pub fn new(alloc: Global, net: &Network) -> Result<Agenda, NoMemory>
        ensures made { IfOk result (IsAgendaFor net.now) }
    {
        prove!(net.events() <= MAX_EVENTS);
        let followers = followers(alloc, net)?;
        let pending = PendingFlags::new(alloc, net.len())?;
        Ok(Agenda { followers, pending })
    }

    /// Gives each constraint its flag.
    pub fn begin(&mut self)
        ensures made { (net : Net) → IsAgendaFor net self.old → IsAgendaFor net self.new }
        ensures tried { (net : Net) (values : List ℤ) → IsAgendaFor net self.old
            → AreOthersTried net values self.new.pending }
    {
        self.pending.fill();
    }

    /// The first line of the constraint of least number that allows a line. A constraint that is examined without result loses its flag.
    pub fn next_line(&mut self, net: &Network, values: &[i64]) -> Option<FallLine>
        requires made { IsAgendaFor net.now self.old }
        requires count { length values.now ≡ net.now.events }
        requires near { All IsNearValue values.now }
        requires tried { AreOthersTried net.now values.now self.old.pending }
        ensures line { IfSome result (IsLineAllowed net.now values.now) }
        ensures turn { IfSome result (IsTurnLine net.now values.now) }
        ensures none { IfNone result (IsFixedPoint net.now values.now) }
        ensures made { IsAgendaFor net.now self.new }
        ensures tried { AreOthersTried net.now values.now self.new.pending }
    {
        next_line(net, values, &mut self.pending)
    }

    /// Gives the followers of an event that fell their flags.
    pub fn wake(&mut self, event: EventId)
        requires event { event.0 < length self.old.followers }
        requires room { All (λ (number : ℕ). number < 64 * length self.old.pending)
            (at_event self.old.followers event.0) }
        ensures made { (net : Net) → IsAgendaFor net self.old → IsAgendaFor net self.new }
        ensures tried { (net : Net) (values : List ℤ) (value : ℤ) → IsAgendaFor net self.old
            → value <ℤ time_of values event → AreOthersTried net values self.old.pending
            → AreOthersTried net (set values event.0 value) self.new.pending }
    {
        insert_all(&mut self.pending, self.followers.of(event));
    }
}
