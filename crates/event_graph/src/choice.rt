//! Choices of causes.

use std::marker::Model;

/// A cause of a constraint that is chosen: the numbers of both, from 0.
#[derive(Clone, Copy)]
pub struct Choice {
    pub constraint: u32,
    pub cause: u32,
}

impl Model for Choice {
    ghost use Rattle.event_graph.specs.Proof.{Choice};

    ghost Value = { Choice };

    ghost view = { λ c. record { constraint = c.constraint; cause = c.cause } };

    ghost inverse = { λ c. record { constraint = c.constraint; cause = c.cause } };
}
