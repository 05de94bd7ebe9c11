//! The memory in which chains are found.

ghost use Rattle.std.specs.Prelude.{◌≡◌, ◌<◌, ◌≤◌, ℕ, List, [], false, All, IfOk, IsTrue, length};
ghost use Rattle.itv_base.specs.declared.names.EdgeName.{EdgeName as NameOfEdge};
ghost use Rattle.event_graph.specs.Satisfying.{Satisfies};
ghost use Rattle.event_graph.specs.Times.{IsTime};
ghost use Rattle.chains.specs.Chain.{AreBest, IsChain, IsExceeded};

use crate::follow::follow;
use crate::spread::Spread;
use crate::spreading::spread_back;
use event_graph::Network;
use itv_base::{EdgeName, EventId, NoMemory};
use std::alloc::Global;
use std::marker::Model;

/// The memory in which chains of a network are found, one after another. It has a flag for each event and room for the names of two edges for
/// each event. Contracts see the number of events and the chain that was found last.
#[derive(Drop)]
pub struct Chains {
    spread: Spread,
    names: Vec<EdgeName>,
}

impl Model for Chains {
    ghost use Rattle.std.specs.Prelude.{◌≤◌, length, vec_capacity};
    ghost use Rattle.chains.specs.Chain.{ChainsView};

    ghost Value = { ChainsView };

    ghost view = { λ c. record { events = length c.spread.reached; names = c.names.items } };

    ghost invariant = { λ c. length c.spread.reached ≤ vec_capacity c.names };
}

impl Chains {
    /// The memory for a network, with no chain yet. Takes all the memory that is ever needed, or answers `NoMemory`.
    pub fn new(alloc: Global, net: &Network) -> Result<Chains, NoMemory>
        ensures made { IfOk result (λ chains. chains ≡ record { events = net.now.events; names = [] }) }
    {
        let events = net.events();
        Ok(Chains {
            spread: Spread::new(alloc, events)?,
            names: Vec::with_capacity(alloc, events as usize)?,
        })
    }

    /// Looks for a chain and returns whether there is one. A chain is edges that lead one after another from an event to another, each met with
    /// equality by the times; so the weights of its edges sum to the separation. If there is none and the times satisfy the network, other
    /// satisfying times have a greater separation. So there is a chain if the times attain the greatest separation of the pair. From an event to
    /// itself the chain has no edges. The times are in picoseconds, one per event, each below 2^61 in absolute value. Takes no memory.
    pub fn find(&mut self, net: &Network, times: &[i64], from: EventId, to: EventId) -> bool
        requires made { self.old.events ≡ net.now.events }
        requires count { length times.now ≡ net.now.events }
        requires times { All IsTime times.now }
        requires from { from.0 < net.now.events }
        requires to { to.0 < net.now.events }
        ensures made { self.new.events ≡ self.old.events }
        ensures chain { IsTrue result → IsChain net.now times.now from to self.new.names }
        ensures most { length self.new.names ≤ net.now.events }
        ensures none { result ≡ false
            → (names : List NameOfEdge) → IsChain net.now times.now from to names → ⊥ }
        ensures exceeded { result ≡ false → Satisfies times.now net.now
            → IsExceeded net.now times.now from to }
        ensures best { AreBest net.now times.now from to → IsTrue result }
        ensures empty { result ≡ false → self.new.names ≡ [] }
    {
        net.is_whole();
        self.names.clear();
        self.spread.begin(to);
        if !spread_back(net, times, from, &mut self.spread) {
            return false;
        }
        follow(net, from, &mut self.spread, &mut self.names);
        true
    }

    /// The edges of the chain that was found last, from its first event on. There are none before the first search, and none if the last search
    /// found no chain.
    pub fn names(&self) -> &[EdgeName]
        ensures { result.now ≡ self.now.names }
    {
        &self.names
    }
}
