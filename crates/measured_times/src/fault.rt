//! Why bytes are no measured times.

ghost use Rattle.std.specs.Prelude.{◌≡◌};
ghost use Rattle.measured_times.specs.declared.fault.TimesFault.TheVariants.{NoMemory};

use itv_base::NoMemory as OutOfMemory;
use std::alloc::AllocFailed;
use thiserror::Error;

/// The first fault of a file of measured times.
#[derive(Clone, Copy, Debug, Error)]
pub enum TimesFault {
    /// There are more bytes than [`MAX_TIMES_BYTES`](crate::MAX_TIMES_BYTES).
    #[error("the file is too long")]
    TooLong,
    /// The line of this number, counted from 1, is not the text of a run, or has no end.
    #[error("line {0} is no run")]
    Line(u64),
    /// Memory ran out.
    #[error("out of memory")]
    NoMemory,
}

impl<T: Drop> From<AllocFailed<T>> for TimesFault {
    ghost from_gives = { λ _ e. e ≡ NoMemory };

    fn from(_: AllocFailed<T>) -> TimesFault {
        TimesFault::NoMemory
    }
}

impl From<OutOfMemory> for TimesFault {
    ghost from_gives = { λ _ e. e ≡ NoMemory };

    fn from(_: OutOfMemory) -> TimesFault {
        TimesFault::NoMemory
    }
}
