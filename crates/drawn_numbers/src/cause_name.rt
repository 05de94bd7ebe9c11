//! The names of causes.

/// A cause of a constraint of a network, given by the numbers of both from 0. Cause 0 of a linear constraint is its from-event.
#[derive(Clone, Copy)]
pub struct CauseName {
    pub constraint: u32,
    pub cause: u32,
}
