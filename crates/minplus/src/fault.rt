//! Why a network has no matrix.

ghost use Rattle.std.specs.Prelude.{◌≡◌};
ghost use Rattle.minplus.specs.declared.fault.MatrixFault.TheVariants.{NoMemory};

use itv_base::NoMemory as OutOfMemory;
use std::alloc::{AllocError, AllocFailed};
use thiserror::Error;

/// Why a network has no matrix.
#[derive(Clone, Copy, Debug, Error)]
pub enum MatrixFault {
    /// The network has this number of events, and a matrix may not have so many.
    #[error("the network has {0} events")]
    TooMany(u32),
    /// No times meet the always-edges.
    #[error("no times meet the always-edges")]
    Loop,
    /// There was not enough memory.
    #[error("out of memory")]
    NoMemory,
}

impl From<AllocError> for MatrixFault {
    ghost from_gives = { λ _ e. e ≡ NoMemory };

    fn from(_: AllocError) -> MatrixFault {
        MatrixFault::NoMemory
    }
}

impl<T: Drop> From<AllocFailed<T>> for MatrixFault {
    ghost from_gives = { λ _ e. e ≡ NoMemory };

    fn from(_: AllocFailed<T>) -> MatrixFault {
        MatrixFault::NoMemory
    }
}

impl From<OutOfMemory> for MatrixFault {
    ghost from_gives = { λ _ e. e ≡ NoMemory };

    fn from(_: OutOfMemory) -> MatrixFault {
        MatrixFault::NoMemory
    }
}
