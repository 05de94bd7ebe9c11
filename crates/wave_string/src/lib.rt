//! The kind of a mark: what the wave of a lane draws at the mark's place, and which kinds may be joined. A wave is read as WaveDrom
//! writes it, one character for each brick. No call takes memory. The one contract: `kind_at` gives `kind_of` of specs/Kinds.antt,
//! a rule on two places of the wave.
#![tactic(auto)]

mod class;
mod mark_kind;
mod wave;

pub use mark_kind::{MarkKind, may_join};
pub use wave::kind_at;
