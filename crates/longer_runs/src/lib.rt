//! What the network of some cycles says of every longer run. Any cycles of a longer run satisfy the rules of so many cycles, so what
//! passes over some cycles passes over every greater number of cycles (`window_laws`). Times that satisfy one cycle with all rules
//! come again a period later in each cycle of every run (`period_laws`). Where both give one number, it is the bound in every cycle of
//! every run (`always_laws`). The laws are theorems without code.
#![tactic(auto)]

pub mod always_laws;
pub mod period_laws;
pub mod window_laws;
