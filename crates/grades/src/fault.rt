//! Faults of the grades of a tree.

ghost use Rattle.std.specs.Prelude.{◌≡◌};
ghost use Rattle.grades.specs.declared.fault.GradesFault.TheVariants.{NoMemory};

use itv_base::{NoMemory as OutOfMemory, RangeFault};
use std::alloc::AllocFailed;
use thiserror::Error;

/// The first fault of the grades of a tree. The form of all grades is checked before any range. Grades and parameters are numbered from 0 in the byte
/// order of their names.
#[derive(Clone, Copy, Debug, Error)]
pub enum GradesFault {
    /// `itv_grades` is there without the form: an object from names to objects from names to lists of two ends, each a whole number or null.
    #[error("`itv_grades` has not the form of speed grades")]
    Grades,
    /// The two ends of a parameter are no range: the number of the grade, the number of the parameter in it, and the reason.
    #[error("parameter {1} of grade {0} is no range")]
    Limits(u64, u64, RangeFault),
    #[error("out of memory")]
    NoMemory,
}

impl<T: Drop> From<AllocFailed<T>> for GradesFault {
    ghost from_gives = { λ _ e. e ≡ NoMemory };

    fn from(_: AllocFailed<T>) -> GradesFault {
        GradesFault::NoMemory
    }
}

impl From<OutOfMemory> for GradesFault {
    ghost from_gives = { λ _ e. e ≡ NoMemory };

    fn from(_: OutOfMemory) -> GradesFault {
        GradesFault::NoMemory
    }
}
