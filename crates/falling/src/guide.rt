//! What leads a derivation.

use crate::agenda::Agenda;
use crate::limits::Limits;

// The limits of a network, and the agenda: which of its constraints are to be looked at.
#[derive(Drop)]
pub struct Guide {
    pub limits: Limits,
    pub agenda: Agenda,
}
