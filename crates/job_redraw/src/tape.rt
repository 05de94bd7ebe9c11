//! A sink in memory that grows.

ghost use Rattle.std.specs.Prelude.{◌≡◌, [], Some};

use itv_base::{PutFailed, Sink};
use std::alloc::Global;
use std::marker::Model;

/// A sink that keeps its bytes in memory. A put fails only for lack of memory; it then takes nothing of the piece.
#[derive(Drop)]
pub struct Tape {
    bytes: Vec<u8>,
    faults: u64,
}

impl Model for Tape {
    ghost use Rattle.std.specs.Prelude.{Some};
    ghost use Rattle.itv_base.specs.Outside.{SinkState};

    ghost Value = { SinkState };

    ghost view = { λ t. record { written = Some t.bytes.items; faults = t.faults } };
}

impl Tape {
    /// Makes an empty tape. It takes no memory yet.
    pub fn new(alloc: Global) -> Tape
        ensures empty { result ≡ record { written = Some []; faults = 0 } }
    {
        Tape {
            bytes: Vec::new(alloc),
            faults: 0,
        }
    }

    /// The bytes that the tape keeps.
    pub fn bytes(&self) -> &[u8]
        ensures bytes { self.now.written ≡ Some result.now }
    {
        &self.bytes
    }
}

impl Sink for Tape {
    ghost state = { λ t. t };

    fn put(&mut self, piece: &[u8]) -> Result<(), PutFailed> {
        match self.bytes.extend_from_slice(piece) {
            Ok(()) => Ok(()),
            Err(_) => {
                self.faults = self.faults.saturating_add(1);
                Err(PutFailed)
            }
        }
    }
}
