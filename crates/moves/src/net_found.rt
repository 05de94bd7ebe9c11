//! What is found of a network with its rows.

/// What is found of a network with its rows.
#[derive(Clone, Copy, PartialEq, Eq)]
pub enum NetFound {
    /// Some times satisfy the network, and they meet every requirement.
    Passes,
    /// Some satisfying times break the requirement of the row with this number.
    Breaks(u32),
    /// No times satisfy the network.
    Inconsistent,
    /// Some times satisfy the network. The search of a row was left open, and no row was found to break.
    Open,
    /// The search for times was left open.
    Spent,
}
