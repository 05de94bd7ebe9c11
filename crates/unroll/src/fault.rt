//! Why a design is not drawn.

ghost use Rattle.std.specs.Prelude.{◌≡◌};
ghost use Rattle.unroll.specs.declared.fault.UnrollFault.TheVariants.{NoMemory};

use crate::limit::Limit;
use itv_base::NoMemory as OutOfMemory;
use std::alloc::AllocFailed;
use thiserror::Error;

/// Why a design is not drawn.
#[derive(Clone, Copy, Debug, Error)]
pub enum UnrollFault {
    /// The first limit that the drawn network passes, with the count.
    #[error("the drawn network passes a limit: there are {count}")]
    TooMany { limit: Limit, count: u128 },
    #[error("out of memory")]
    NoMemory,
}

impl<T: Drop> From<AllocFailed<T>> for UnrollFault {
    ghost from_gives = { λ _ e. e ≡ NoMemory };

    fn from(_: AllocFailed<T>) -> UnrollFault {
        UnrollFault::NoMemory
    }
}

impl From<OutOfMemory> for UnrollFault {
    ghost from_gives = { λ _ e. e ≡ NoMemory };

    fn from(_: OutOfMemory) -> UnrollFault {
        UnrollFault::NoMemory
    }
}
