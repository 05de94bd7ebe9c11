//! The values of numbers around the drawn ones with which every requirement passes: numbers with one value, as the period of a clock, that move as one.
//! The contract: what `find_span` finds is right. It finds how far the values may be moved down and up with no requirement that breaks, and what stands beyond
//! the last value on each side; or that with no value near the drawn one every requirement passes.
#![tactic(auto)]

mod advance;
mod border;
mod bordering;
mod counts;
mod direction;
mod finding;
mod frame;
mod framed_range;
mod interval;
mod looking;
mod nearby;
mod reach;
mod sought;

pub use finding::find_span;
