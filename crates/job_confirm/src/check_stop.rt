//! Why a check goes no further.

ghost use Rattle.std.specs.Prelude.{◌≡◌};
ghost use Rattle.job_confirm.specs.declared.check_stop.CheckStop.TheVariants.{NoMemory as WantsMemory};

use itv_base::{NoMemory, PutFailed};
use std::alloc::AllocFailed;

/// Why a check goes no further.
#[derive(Clone, Copy)]
pub enum CheckStop {
    /// A line is refused: the line in which the last `left` bytes of the text begin.
    Refused { left: usize },
    /// Memory ran out.
    NoMemory,
}

impl From<NoMemory> for CheckStop {
    ghost from_gives = { λ _ e. e ≡ WantsMemory };

    fn from(_: NoMemory) -> CheckStop {
        CheckStop::NoMemory
    }
}

impl<T: Drop> From<AllocFailed<T>> for CheckStop {
    ghost from_gives = { λ _ e. e ≡ WantsMemory };

    fn from(_: AllocFailed<T>) -> CheckStop {
        CheckStop::NoMemory
    }
}

// A put into a draft fails only if memory runs out.
impl From<PutFailed> for CheckStop {
    ghost from_gives = { λ _ e. e ≡ WantsMemory };

    fn from(_: PutFailed) -> CheckStop {
        CheckStop::NoMemory
    }
}
