//! A sink that keeps nothing.

ghost use Rattle.std.specs.Prelude.{None};

use itv_base::{PutFailed, Sink};

/// Takes every piece and keeps nothing of it. No put of it fails.
#[derive(Clone, Copy)]
pub struct Nowhere;

impl Sink for Nowhere {
    ghost state = { λ _. record { written = None; faults = 0 } };

    fn put(&mut self, _piece: &[u8]) -> Result<(), PutFailed> {
        Ok(())
    }
}
