//! Why a tree is no diagram.

ghost use Rattle.std.specs.Prelude.{◌≡◌};
ghost use Rattle.wavejson.specs.declared.fault.DiagramFault.TheVariants.{NoMemory};

use itv_base::NoMemory as OutOfMemory;
use thiserror::Error;

/// What is wrong with a tree, or lack of memory. The faults are in the order in which they are reported.
#[derive(Clone, Copy, Debug, Error)]
pub enum DiagramFault {
    /// The tree is no object.
    #[error("the diagram is no object")]
    NotObject,
    /// `signal` is missing, or it is no array.
    #[error("the diagram has no array `signal`")]
    NoSignal,
    /// `edge` is there, and it is no array.
    #[error("`edge` is no array")]
    EdgesNotList,
    /// The first element of `edge` that is no string, by its place counted from 0.
    #[error("edge {0} is no string")]
    EdgeNotText(u64),
    #[error("out of memory")]
    NoMemory,
}

impl From<OutOfMemory> for DiagramFault {
    ghost from_gives = { λ _ e. e ≡ NoMemory };

    fn from(_: OutOfMemory) -> DiagramFault {
        DiagramFault::NoMemory
    }
}
