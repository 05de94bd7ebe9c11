//! Why a session was not made, or not edited.

ghost use Rattle.std.specs.Prelude.{◌≡◌};
ghost use Rattle.whatif.specs.declared.fault.SessionFault.TheVariants.{NoMemory};

use itv_base::NoMemory as OutOfMemory;
use std::alloc::AllocError;
use thiserror::Error;

/// Why a session was not made.
#[derive(Clone, Copy, Debug, Error)]
pub enum SessionFault {
    /// There are this many pairs, more than [`MAX_PAIRS`](crate::MAX_PAIRS).
    #[error("{0} pairs are too many")]
    TooManyPairs(u64),
    /// There was not enough memory.
    #[error("out of memory")]
    NoMemory,
}

/// Why a session was not edited.
#[derive(Clone, Copy, Debug, Error)]
pub enum EditFault {
    /// A constraint or a cause is not there.
    #[error("there is no such cause")]
    NoSuch,
    /// There was not enough memory.
    #[error("out of memory")]
    NoMemory,
}

impl From<AllocError> for SessionFault {
    ghost from_gives = { λ _ e. e ≡ NoMemory };

    fn from(_: AllocError) -> SessionFault {
        SessionFault::NoMemory
    }
}

impl From<OutOfMemory> for SessionFault {
    ghost from_gives = { λ _ e. e ≡ NoMemory };

    fn from(_: OutOfMemory) -> SessionFault {
        SessionFault::NoMemory
    }
}

impl From<OutOfMemory> for EditFault {
    ghost use Rattle.whatif.specs.declared.fault.EditFault.TheVariants.{NoMemory};

    ghost from_gives = { λ _ e. e ≡ NoMemory };

    fn from(_: OutOfMemory) -> EditFault {
        EditFault::NoMemory
    }
}
