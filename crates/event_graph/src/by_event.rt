//! Lists of values, one list for each event.

ghost use Rattle.std.specs.Prelude.{◌≡◌, ◌<◌, ◌≤◌, ◌∷◌, ◌++◌, [], IfNone, IfOk, IfSome, OnErr, OnOk, length, replicate, set};
ghost use Rattle.event_graph.specs.EventLists.{at_event};

use itv_base::{EventId, NoMemory};
use std::alloc::Global;
use std::marker::Model;

/// A list of values for each event. Contracts see the lists by the numbers of their events.
#[derive(Drop)]
pub struct ByEvent<T> {
    lists: Vec<Vec<T>>,
}

impl<T> Model for ByEvent<T> {
    ghost use Rattle.std.specs.Prelude.{List};
    ghost use Rattle.event_graph.specs.EventLists.{lists_of};

    ghost Value = { List (List T) };

    ghost view = { λ b. lists_of b.lists.items };
}

impl<T> ByEvent<T> {
    /// The list of an event.
    pub fn of(&self, event: EventId) -> &[T]
        requires { event.0 < length self.now }
        ensures list { result.now ≡ at_event self.now event.0 }
    {
        &self.lists[event.0 as usize]
    }

    /// The list of an event, if there is such an event.
    pub fn get(&self, event: EventId) -> Option<&[T]>
        ensures list { IfSome result (λ list. (event.0 < length self.now) × (list.now ≡ at_event self.now event.0)) }
        ensures none { IfNone result (length self.now ≤ event.0) }
    {
        match self.lists.get(event.0 as usize) {
            Some(list) => Some(list),
            None => None,
        }
    }
}

impl<T: Drop> ByEvent<T> {
    /// An empty list for each of so many events. Takes memory for the lists, not yet for values, or returns `NoMemory`.
    pub fn new(alloc: Global, events: u32) -> Result<ByEvent<T>, NoMemory>
        ensures empty { IfOk result (λ b. b ≡ replicate events []) }
    {
        let mut lists = Vec::with_capacity(alloc, events as usize)?;
        for _event in 0..events {
            lists.push(Vec::new(alloc))?;
        }
        Ok(ByEvent { lists })
    }

    /// Puts a value at the end of the list of an event. Where memory is not found the lists are unchanged.
    pub fn push(&mut self, event: EventId, value: T) -> Result<(), NoMemory>
        requires { event.0 < length self.old }
        ensures ok { OnOk result (self.new ≡ set self.old event.0 (at_event self.old event.0 ++ value ∷ [])) }
        ensures err { OnErr result (self.new ≡ self.old) }
    {
        self.lists[event.0 as usize].push(value)?;
        Ok(())
    }

    /// Replaces the value at a place of the list of an event. Places are counted from 0.
    pub fn replace(&mut self, event: EventId, place: usize, value: T)
        requires event { event.0 < length self.old }
        requires place { place < length (at_event self.old event.0) }
        ensures { self.new ≡ set self.old event.0 (set (at_event self.old event.0) place value) }
    {
        self.lists[event.0 as usize][place] = value;
    }
}
