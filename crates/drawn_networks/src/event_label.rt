//! The names of events as they are kept.

/// The name of an event. It has the number of the part, counted from 0, in place of the part's name.
#[derive(Clone, Copy)]
pub struct EventLabel {
    pub part: u32,
    pub mark: u8,
    pub cycle: u32,
}
