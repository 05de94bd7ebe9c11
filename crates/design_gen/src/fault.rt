//! Why no design was made.

ghost use Rattle.std.specs.Prelude.{◌≡◌};
ghost use Rattle.design_gen.specs.declared.fault.GenFault.TheVariants.{NoMemory};

use itv_base::NoMemory as OutOfMemory;
use thiserror::Error;

/// Why no design of a size was made.
#[derive(Clone, Copy, Debug, Error)]
pub enum GenFault {
    /// There is no design of this size.
    #[error("there is no design of size {0}")]
    OutOfRange(u32),
    /// Memory ran out.
    #[error("out of memory")]
    NoMemory,
}

impl From<OutOfMemory> for GenFault {
    ghost from_gives = { λ _ fault. fault ≡ NoMemory };

    fn from(_: OutOfMemory) -> GenFault {
        GenFault::NoMemory
    }
}
