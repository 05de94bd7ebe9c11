//! The generated design, a bus of one master and n slaves, as files on a shelf in memory.
//! The contract of the crate: `make` gives the four files of the size and no others, and each file is the text of its tree. No call of the
//! shelf is to fail. `make` gives `OutOfRange` if and only if there is no design of the size.
#![tactic(auto)]

mod design;
mod fault;
pub mod laws;
mod netlist;
mod sheets;

pub use design::make;
pub use fault::GenFault;
