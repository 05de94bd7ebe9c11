//! Where keys of netlists stand.

/// The object of a netlist that has a key. Parts and nets have their numbers, from 0.
#[derive(Clone, Copy)]
pub enum KeyPlace {
    /// The netlist itself.
    Netlist,
    /// The part with this number.
    Part(u64),
    /// The net with this number.
    Net(u64),
}
