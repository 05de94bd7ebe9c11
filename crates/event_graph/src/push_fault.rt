//! Why a constraint was not added to a network.

ghost use Rattle.std.specs.Prelude.{◌≡◌};
ghost use Rattle.event_graph.specs.declared.push_fault.PushFault.TheVariants.{NoMemory};

use itv_base::NoMemory as OutOfMemory;
use std::alloc::{AllocError, AllocFailed};
use thiserror::Error;

/// Why a constraint was not added to a network.
#[derive(Clone, Copy, Debug, Error)]
pub enum PushFault {
    /// The network is full: it has this many constraints, the most that it may have.
    #[error("the network has {0} constraints already")]
    Full(u32),
    /// There was not enough memory.
    #[error("out of memory")]
    NoMemory,
}

impl From<AllocError> for PushFault {
    ghost from_gives = { λ _ e. e ≡ NoMemory };

    fn from(_: AllocError) -> PushFault {
        PushFault::NoMemory
    }
}

impl<T: Drop> From<AllocFailed<T>> for PushFault {
    ghost from_gives = { λ _ e. e ≡ NoMemory };

    fn from(_: AllocFailed<T>) -> PushFault {
        PushFault::NoMemory
    }
}

impl From<OutOfMemory> for PushFault {
    ghost from_gives = { λ _ e. e ≡ NoMemory };

    fn from(_: OutOfMemory) -> PushFault {
        PushFault::NoMemory
    }
}
