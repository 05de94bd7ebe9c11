//! Files by name, as the program is given them.

ghost use Rattle.std.specs.Prelude.{◌≡◌};
ghost use Rattle.itv_base.specs.Outside.{ShelfState, Fetches};
ghost use Rattle.itv_base.specs.declared.shelf.FetchFault.TheVariants.{NoMemory};

use crate::text::NoMemory as OutOfMemory;
use std::alloc::{AllocError, AllocFailed, Global};
use thiserror::Error;

/// Why a fetch gave no bytes.
#[derive(Clone, Copy, Debug, Error)]
pub enum FetchFault {
    /// The file could not be read. The shelf's count of faults rose.
    #[error("the file could not be read")]
    Failed,
    #[error("out of memory")]
    NoMemory,
}

impl From<AllocError> for FetchFault {
    ghost from_gives = { λ _ e. e ≡ NoMemory };

    fn from(_: AllocError) -> FetchFault {
        FetchFault::NoMemory
    }
}

impl<T: Drop> From<AllocFailed<T>> for FetchFault {
    ghost from_gives = { λ _ e. e ≡ NoMemory };

    fn from(_: AllocFailed<T>) -> FetchFault {
        FetchFault::NoMemory
    }
}

impl From<OutOfMemory> for FetchFault {
    ghost from_gives = { λ _ e. e ≡ NoMemory };

    fn from(_: OutOfMemory) -> FetchFault {
        FetchFault::NoMemory
    }
}

/// Gives the bytes of files by their names.
pub trait Shelf {
    /// What contracts see of the shelf: its files, if they see them; how often a fetch has failed, a count that never
    /// falls and stays at the last value of 64 bits; the name in the latest failed fetch; and whether fetches fail only
    /// for absent files.
    ghost state: { Self → ShelfState };

    /// The first `cap` bytes of a file, or all its bytes if there are fewer. It fails only if the count of faults rose,
    /// and then the name is the last that failed. Lack of memory changes nothing of the view.
    fn fetch(&mut self, alloc: Global, name: &str, cap: u32) -> Result<Vec<u8>, FetchFault>
        ensures fetches { Fetches (state self.old) (state self.new) name.now cap result };
}
