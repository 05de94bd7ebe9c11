//! Why a text is no report.

ghost use Rattle.std.specs.Prelude.{◌≡◌};
ghost use Rattle.slack_report.specs.declared.fault.ReportFault.TheVariants.{NoMemory};

use itv_base::NoMemory as OutOfMemory;
use std::alloc::AllocFailed;

/// Why a text was not read as a report.
#[derive(Clone, Copy)]
pub enum ReportFault {
    /// The first line, counted from 1, at which no report can go on.
    Line(u64),
    /// There was not enough memory.
    NoMemory,
}

impl From<OutOfMemory> for ReportFault {
    ghost from_gives = { λ _ e. e ≡ NoMemory };

    fn from(_: OutOfMemory) -> ReportFault {
        ReportFault::NoMemory
    }
}

impl<T: Drop> From<AllocFailed<T>> for ReportFault {
    ghost from_gives = { λ _ e. e ≡ NoMemory };

    fn from(_: AllocFailed<T>) -> ReportFault {
        ReportFault::NoMemory
    }
}
