//! Job confirm: whether a text of job settle is right, without any search. The contract of the crate: a text is accepted
//! if and only if it is a text of job settle with its proofs, whoever wrote it, unless memory runs out. A checker has
//! taken each proof of an accepted text.
#![tactic(auto)]

mod answer;
mod bound;
mod check_stop;
mod compare;
mod confirm;
mod draft;
mod finding;
mod pair;
mod past;
mod proof;
mod reader;
mod rows;
mod times;
mod views;

pub use answer::write_confirm;
