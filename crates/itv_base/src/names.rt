//! The names of events and of edges.

/// An event of a network, given by its number from 0.
#[derive(Clone, Copy, PartialEq, Eq)]
pub struct EventId(pub u32);

/// How a constraint reads its causes.
#[derive(Clone, Copy, PartialEq, Eq, Hash)]
pub enum RuleKind {
    /// The separation of two events lies in a range.
    Lin,
    /// The target comes at the latest of its causes, each delayed within its range.
    Late,
    /// The target comes at the earliest of its causes, each delayed within its range.
    Early,
}

/// A side of a range: the side of its low end, or the side of its high end.
#[derive(Clone, Copy, PartialEq, Eq)]
pub enum Side {
    Lower,
    Upper,
}

/// An edge of a network, by the numbers from 0 of its constraint and of its cause, and by its side. The cause of a linear
/// constraint is 0.
#[derive(Clone, Copy)]
pub struct EdgeName {
    pub constraint: u32,
    pub cause: u32,
    pub side: Side,
}

/// What an event is called in a report: its part, its mark (a visible character of ASCII) and its cycle from 0.
#[derive(Clone, Copy)]
pub struct EventName<'a> {
    pub part: &'a str,
    pub mark: u8,
    pub cycle: u32,
}
