//! A sink in memory, for tests.

ghost use Rattle.std.specs.Prelude.{◌≡◌, [], Some, None, IfOk, is_ok};
ghost use Rattle.itv_base.specs.Outside.{Puts};
ghost use Rattle.itv_base.specs.Memory.{sink_state, after_put, takes};

use crate::sink::{PutFailed, Sink};
use crate::text::NoMemory;
use std::alloc::Global;
use std::marker::Model;

/// Room for a number of bytes. A put fails if and only if the number of the call, from 0, is the named one, or the
/// piece does not fit. At the named call the put takes nothing. Of a piece that does not fit it takes as much as fits.
#[derive(Drop)]
pub struct SinkMem {
    bytes: Vec<u8>,
    room: usize,
    failing: Option<u32>,
    calls: u32,
    faults: u64,
}

impl Model for SinkMem {
    ghost use Rattle.std.specs.Prelude.{◌≤◌, length, vec_capacity};
    ghost use Rattle.itv_base.specs.Memory.{SinkMemView};

    ghost Value = { SinkMemView };

    ghost view = { λ s. record { bytes = s.bytes.items; room = s.room; failing = s.failing; calls = s.calls; faults = s.faults } };

    ghost invariant = { λ s. (length s.bytes.items ≤ s.room) × (s.room ≤ vec_capacity s.bytes) };
}

impl SinkMem {
    /// Nothing written, and room for a number of bytes. Takes all the memory that the sink ever needs.
    pub fn new(alloc: Global, room: u32) -> Result<SinkMem, NoMemory>
        ensures fresh { IfOk result (λ s. s ≡ record { bytes = []; room = room; failing = None; calls = 0; faults = 0 }) }
    {
        let room = room as usize;
        Ok(SinkMem {
            bytes: Vec::with_capacity(alloc, room)?,
            room,
            failing: None,
            calls: 0,
            faults: 0,
        })
    }

    /// Names the one call that is to fail, given by its number from 0.
    pub fn fail_call(&mut self, call: u32)
        ensures named { self.new ≡ record self.old { failing = Some call } }
    {
        self.failing = Some(call);
    }

    /// What was written.
    pub fn bytes(&self) -> &[u8]
        ensures written { result.now ≡ self.now.bytes }
    {
        &self.bytes
    }
}

impl Sink for SinkMem {
    ghost state = { sink_state };

    fn put(&mut self, piece: &[u8]) -> Result<(), PutFailed>
        ensures puts { Puts (sink_state self.old) (sink_state self.new) piece.now result }
        ensures exact { self.new ≡ after_put self.old piece.now }
        ensures answer { is_ok result ≡ takes self.old piece.now }
    {
        let is_named = self.failing == Some(self.calls);
        self.calls = self.calls.saturating_add(1);
        let room = if is_named {
            0
        } else {
            self.room - self.bytes.len()
        };
        let taken = piece.len().min(room);
        self.bytes.extend_from_slice(&piece[..taken]).unwrap();
        if is_named || taken < piece.len() {
            self.faults = self.faults.saturating_add(1);
            return Err(PutFailed);
        }
        Ok(())
    }
}
