//! Why a text is not a line of a proof.

ghost use Rattle.std.specs.Prelude.{◌≡◌};
ghost use Rattle.certificate.specs.declared.fault.LineFault.TheVariants.{NoMemory};

use itv_base::NoMemory as OutOfMemory;

/// Why a text was not read as a line of a proof.
#[derive(Clone, Copy)]
pub enum LineFault {
    /// The text is not the text of a line.
    BadLine,
    /// There was not enough memory.
    NoMemory,
}

impl From<OutOfMemory> for LineFault {
    ghost from_gives = { λ _ e. e ≡ NoMemory };

    fn from(_: OutOfMemory) -> LineFault {
        LineFault::NoMemory
    }
}
