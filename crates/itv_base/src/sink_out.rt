//! Standard output.

ghost use Rattle.std.specs.Prelude.{◌≡◌, ◌≤◌, None, OnOk, OnErr};
ghost use Rattle.std.specs.Io.KnownBytes.{Appends};
ghost use Rattle.itv_base.specs.Outside.{FaultCounted};
ghost use Rattle.itv_base.specs.Step.{WritesFront};

use crate::sink::{PutFailed, Sink};
use std::io;
use std::io::{ErrorKind, Write};
use std::marker::Model;

/// Standard output. Contracts do not see what was written.
#[derive(Drop)]
pub struct SinkOut<R: Print + Drop> {
    runtime: R,
    faults: u64,
}

impl<R: Print + Drop> Model for SinkOut<R> {
    ghost use Rattle.std.specs.Prelude.{ℕ};

    // How often a put has failed.
    ghost Value = { ℕ };

    ghost view = { λ s. s.faults };
}

impl<R: Print + Drop> SinkOut<R> {
    /// The standard output of a runtime. No put has failed yet.
    pub fn new(runtime: R) -> SinkOut<R>
        ensures fresh { result ≡ 0 }
    {
        SinkOut { runtime, faults: 0 }
    }
}

// Writes the whole piece, and flushes it. A write that takes nothing has failed.
fn write_whole<W: Write>(out: &mut W, piece: &[u8]) -> io::Result<()>
    ensures whole { OnOk result (Appends (W.contents out.old) (W.contents out.new) piece.now) }
    ensures front { OnErr result (WritesFront (W.contents out.old) (W.contents out.new) piece.now) }
{
    let mut rest = piece;
    for _ in 0..u64::MAX {
        if rest.is_empty() {
            return out.flush();
        }
        match out.write(rest) {
            Ok(count) => {
                if count == 0 {
                    break;
                }
                rest = &rest[count..];
            }
            Err(error) if error.kind() == ErrorKind::Interrupted => {}
            Err(error) => return Err(error),
        }
    }
    Err(io::Error::from(ErrorKind::WriteZero))
}

// A put by a writer, with its count of faults.
fn put_by<W: Write>(out: &mut W, piece: &[u8], faults: &mut u64) -> Result<(), PutFailed>
    ensures whole { OnOk result (Appends (W.contents out.old) (W.contents out.new) piece.now) }
    ensures front { OnErr result (WritesFront (W.contents out.old) (W.contents out.new) piece.now) }
    ensures still { OnOk result (faults.new ≡ faults.old) }
    ensures count { OnErr result (faults.old ≤ faults.new) }
    ensures rose { OnErr result (FaultCounted faults.old faults.new) }
{
    match write_whole(out, piece) {
        Ok(()) => Ok(()),
        Err(_) => {
            *faults = faults.saturating_add(1);
            Err(PutFailed)
        }
    }
}

impl<R: Print + Drop> Sink for SinkOut<R> {
    ghost state = { λ s. record { written = None; faults = s } };

    fn put(&mut self, piece: &[u8]) -> Result<(), PutFailed> {
        put_by(&mut io::writer(&self.runtime), piece, &mut self.faults)
    }
}
