//! Why a job has no answer.

ghost use Rattle.std.specs.Prelude.{◌≡◌};
ghost use Rattle.job_base.specs.declared.unanswered.Unanswered.{Unanswered};

use itv_base::{NoMemory, PutFailed};

/// Why a job has no answer.
#[derive(Clone, Copy)]
pub enum Unanswered {
    /// The output could not be written.
    PutFailed,
    /// Memory ran out before anything was written.
    NoMemory,
}

impl From<PutFailed> for Unanswered {
    ghost from_gives = { λ _ e. e ≡ Unanswered.PutFailed };

    fn from(_: PutFailed) -> Unanswered {
        Unanswered::PutFailed
    }
}

impl From<NoMemory> for Unanswered {
    ghost from_gives = { λ _ e. e ≡ Unanswered.NoMemory };

    fn from(_: NoMemory) -> Unanswered {
        Unanswered::NoMemory
    }
}
