//! Where the program writes.

ghost use Rattle.std.specs.Prelude.{map};
ghost use Rattle.std.specs.List.{concat};
ghost use Rattle.itv_base.specs.Outside.{SinkState, Puts};

use thiserror::Error;

/// A piece was not written whole.
#[derive(Clone, Copy, Debug, Error)]
#[error("the output could not be written")]
pub struct PutFailed;

/// Takes bytes, piece by piece.
pub trait Sink {
    /// What contracts see of the sink: what was written, if they see it, and how often a put has failed, a count that
    /// never falls and stays at the last value of 64 bits.
    ghost state: { Self → SinkState };

    /// Appends the piece. If the put failed, it appended a front of the piece, and the count of faults rose.
    fn put(&mut self, piece: &[u8]) -> Result<(), PutFailed>
        ensures puts { Puts (state self.old) (state self.new) piece.now result };
}

/// Puts the pieces one after another, up to the first put that fails.
pub fn put_all<K: Sink>(sink: &mut K, pieces: &[&[u8]]) -> Result<(), PutFailed>
    ensures puts { Puts (K.state sink.old) (K.state sink.new) (concat (map (λ p. p.now) pieces.now)) result }
{
    for piece in pieces {
        sink.put(piece)?;
    }
    Ok(())
}
