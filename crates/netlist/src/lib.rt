//! A netlist: which parts a design has, on which sheets and at which speed grades they are drawn, and which nets and wires join them. It is
//! read from a tree of JSON. Parts, nets, pins and wires are numbered from 0. Comments count among the wires.
//! The one contract: `read_netlist` gives the netlist of the tree, or its first fault if and only if the tree has a fault.
#![tactic(auto)]

mod cycles;
mod fault;
mod netlist;
mod nets;
mod part;
mod parts;
mod pin;
mod pin_net;
mod pins;
mod read;
mod sheet_names;
mod tree;
mod wire;
mod wires;

pub use fault::NetlistFault;
pub use netlist::Netlist;
pub use part::{Part, Parts};
pub use pin::{PinText, PinTexts};
pub use pin_net::{Nets, PinNet};
pub use read::read_netlist;
pub use wire::{Wire, Wires};
