//! Why a list of numbers is not taken.

ghost use Rattle.std.specs.Prelude.{◌≡◌};
ghost use Rattle.job_margin.specs.declared.list_fault.ListFault.{ListFault};

use itv_base::NoMemory as OutOfMemory;
use std::alloc::{AllocError, AllocFailed};

/// Why a list of numbers is not taken.
#[derive(Clone, Copy)]
pub enum ListFault {
    /// The text at this place, counted from 0, names no number of the design, or one that the list has before.
    NoNumber(u64),
    /// Memory ran out.
    NoMemory,
}

impl From<OutOfMemory> for ListFault {
    ghost from_gives = { λ _ e. e ≡ ListFault.NoMemory };

    fn from(_: OutOfMemory) -> ListFault {
        ListFault::NoMemory
    }
}

impl<T: Drop> From<AllocFailed<T>> for ListFault {
    ghost from_gives = { λ _ e. e ≡ ListFault.NoMemory };

    fn from(_: AllocFailed<T>) -> ListFault {
        ListFault::NoMemory
    }
}
