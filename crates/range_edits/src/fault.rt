//! Why bytes are no edits.

ghost use Rattle.std.specs.Prelude.{◌≡◌};
ghost use Rattle.range_edits.specs.declared.fault.EditsFault.TheVariants.{NoMemory};

use itv_base::{NoMemory as OutOfMemory, RangeFault};
use std::alloc::AllocFailed;
use thiserror::Error;

/// The first fault of a file of edits. A line has its number, counted from 1.
#[derive(Clone, Copy, Debug, Error)]
pub enum EditsFault {
    /// There are more bytes than [`MAX_EDITS_BYTES`](crate::MAX_EDITS_BYTES).
    #[error("the file is too long")]
    TooLong,
    /// There are so many lines, more than [`MAX_EDITS`](crate::MAX_EDITS).
    #[error("{0} lines are too many")]
    TooMany(u64),
    /// The line is not of the form, or has no end.
    #[error("line {0} is no edit")]
    Line(u64),
    /// The ends on the line make no range.
    #[error("the ends of line {0} make no range")]
    Range(u64, RangeFault),
    /// The network does not have the cause that the line names, or the number that it names draws no cause.
    #[error("the cause of line {0} is not there")]
    NoSuch(u64),
    /// Memory ran out.
    #[error("out of memory")]
    NoMemory,
}

impl<T: Drop> From<AllocFailed<T>> for EditsFault {
    ghost from_gives = { λ _ e. e ≡ NoMemory };

    fn from(_: AllocFailed<T>) -> EditsFault {
        EditsFault::NoMemory
    }
}

impl From<OutOfMemory> for EditsFault {
    ghost from_gives = { λ _ e. e ≡ NoMemory };

    fn from(_: OutOfMemory) -> EditsFault {
        EditsFault::NoMemory
    }
}
