//! A line that is gathered before it is put.

ghost use Rattle.std.specs.Prelude.{◌≡◌, [], IfOk, is_ok};
ghost use Rattle.itv_base.specs.Outside.{Puts};
ghost use Rattle.line_words.specs.Buffer.{after_put, buffer_state, fits};

use itv_base::{NoMemory, PutFailed, Sink};
use std::alloc::Global;
use std::marker::Model;

/// Room for the bytes of one line. It is a sink: a put fails if and only if the piece does not fit, and then takes
/// nothing of the piece.
#[derive(Drop)]
pub struct LineBuffer {
    bytes: Vec<u8>,
    room: usize,
    faults: u64,
}

impl Model for LineBuffer {
    ghost use Rattle.std.specs.Prelude.{◌≤◌, length, vec_capacity};
    ghost use Rattle.line_words.specs.Buffer.{BufferView};

    ghost Value = { BufferView };

    ghost view = { λ b. record { bytes = b.bytes.items; room = b.room; faults = b.faults } };

    ghost invariant = { λ b. (length b.bytes.items ≤ b.room) × (b.room ≤ vec_capacity b.bytes) };
}

impl LineBuffer {
    /// An empty buffer with room for this many bytes. Takes all memory that the buffer ever needs.
    pub fn new(alloc: Global, room: u32) -> Result<LineBuffer, NoMemory>
        ensures empty { IfOk result (λ b. b ≡ record { bytes = []; room = room; faults = 0 }) }
    {
        let room = room as usize;
        Ok(LineBuffer {
            bytes: Vec::with_capacity(alloc, room)?,
            room,
            faults: 0,
        })
    }

    /// Forgets the gathered bytes.
    pub fn clear(&mut self)
        ensures empty { self.new ≡ record self.old { bytes = [] } }
    {
        self.bytes.clear();
    }

    /// Puts the gathered bytes, by one put.
    pub fn put_into<K: Sink>(&self, sink: &mut K) -> Result<(), PutFailed>
        ensures puts { Puts (K.state sink.old) (K.state sink.new) self.now.bytes result }
    {
        sink.put(&self.bytes)
    }
}

impl Sink for LineBuffer {
    ghost state = { buffer_state };

    fn put(&mut self, piece: &[u8]) -> Result<(), PutFailed>
        ensures puts { Puts (buffer_state self.old) (buffer_state self.new) piece.now result }
        ensures exact { self.new ≡ after_put self.old piece.now }
        ensures answer { is_ok result ≡ fits self.old piece.now }
    {
        if self.room - self.bytes.len() < piece.len() {
            self.faults = self.faults.saturating_add(1);
            return Err(PutFailed);
        }
        self.bytes.extend_from_slice(piece).unwrap();
        Ok(())
    }
}
