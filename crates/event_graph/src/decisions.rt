//! The choices of a case.

ghost use Rattle.std.specs.Prelude.{◌≡◌, ◌<◌, ◌↔◌, [], ◌∷◌, None, IfOk, IfSome, IsTrue, MatchOption};
ghost use Rattle.event_graph.specs.Cases.{cause_chosen};
ghost use Rattle.event_graph.specs.Proof.{Case};

use crate::choice::Choice;
use itv_base::NoMemory;
use std::alloc::Global;
use std::marker::Model;

/// A stack of choices, at most one of each constraint, and a table that gives the choice of a constraint without a
/// search. Contracts see the number of constraints for which there is room, and the choices, the latest one first.
#[derive(Drop)]
pub struct Decisions {
    // The choices, the oldest one first.
    choices: Vec<Choice>,
    // For each constraint, the cause that is chosen, if one is.
    causes: Vec<Option<u32>>,
}

impl Model for Decisions {
    ghost use Rattle.event_graph.specs.Cases.{DecisionsView};
    ghost use Rattle.event_graph.specs.Step.Noted.{IsNoted, chosen_in};

    ghost Value = { DecisionsView };

    ghost view = { chosen_in };

    ghost invariant = { IsNoted };
}

impl Decisions {
    /// No choices, and room for one of each of so many constraints. Takes all the memory that it ever needs, or returns
    /// `NoMemory`.
    pub fn new(alloc: Global, room: u32) -> Result<Decisions, NoMemory>
        ensures { IfOk result (λ d. d ≡ record { room = room; chosen = [] }) }
    {
        let count = room as usize;
        Ok(Decisions {
            choices: Vec::with_capacity(alloc, count)?,
            causes: vec![in alloc; None; count]?,
        })
    }

    /// Takes all choices away.
    pub fn clear(&mut self)
        ensures { self.new ≡ record self.old { chosen = [] } }
    {
        while self.pop().is_some() {}
    }

    /// Whether there are no choices.
    pub fn is_empty(&self) -> bool
        ensures { IsTrue result ↔ (self.now.chosen ≡ []) }
    {
        self.choices.is_empty()
    }

    /// Adds a choice of a constraint of which no cause is chosen.
    pub fn push(&mut self, choice: Choice)
        requires constraint { choice.constraint < self.old.room }
        requires free { cause_chosen self.old.chosen choice.constraint ≡ None }
        ensures { self.new ≡ record self.old { chosen = choice ∷ self.old.chosen } }
    {
        self.choices.push_reserved(choice);
        self.causes[choice.constraint as usize] = Some(choice.cause);
    }

    /// Takes the latest choice away, if there is one.
    pub fn pop(&mut self) -> Option<Choice>
        ensures room { self.new.room ≡ self.old.room }
        ensures choice { MatchOption result ((self.old.chosen ≡ []) × (self.new.chosen ≡ []))
            (λ choice. self.old.chosen ≡ choice ∷ self.new.chosen) }
        ensures there { IfSome result (λ choice. choice.constraint < self.new.room) }
        ensures free { IfSome result (λ choice. cause_chosen self.new.chosen choice.constraint ≡ None) }
    {
        let choice = self.choices.pop()?;
        self.causes[choice.constraint as usize] = None;
        Some(choice)
    }

    /// The latest choice, if there is one.
    pub fn top(&self) -> Option<Choice>
        ensures { MatchOption result (self.now.chosen ≡ [])
            (λ choice. (below : Case) × (self.now.chosen ≡ choice ∷ below)) }
    {
        self.choices.last().copied()
    }

    /// The cause that is chosen of a constraint, if one is.
    pub fn cause_of(&self, constraint: u32) -> Option<u32>
        ensures { result ≡ cause_chosen self.now.chosen constraint }
    {
        match self.causes.get(constraint as usize) {
            Some(cause) => *cause,
            // No cause is chosen of a constraint beyond the room.
            None => None,
        }
    }
}
