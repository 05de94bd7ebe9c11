//! A part of a text, written again.

ghost use Rattle.std.specs.Prelude.{◌≡◌, ◌≤◌, ◌++◌, ℕ, List, [], Some, IfOk, drop, length, take};
ghost use Rattle.itv_base.specs.Outside.{Puts};
ghost use Rattle.job_confirm.specs.Step.{Gives, IsPieceAt, draft_state};

use crate::check_stop::CheckStop;
use itv_base::{PutFailed, Sink};
use std::alloc::Global;

/// A sink that gathers bytes in memory. A put fails only if memory runs out.
#[derive(Drop)]
pub struct Draft {
    bytes: Vec<u8>,
    faults: u64,
}

impl Draft {
    /// A draft without bytes.
    pub fn new(alloc: Global) -> Draft
        ensures empty { draft_state result ≡ record { written = Some []; faults = 0 } }
    {
        Draft {
            bytes: Vec::new(alloc),
            faults: 0,
        }
    }

    /// The place after the gathered bytes, if a text has them at a place. If the text differs, the line of the first
    /// byte that differs is refused.
    pub fn place_behind(&self, text: &[u8], place: usize) -> Result<usize, CheckStop>
        requires place { place ≤ length text.now }
        ensures behind { IfOk result (IsPieceAt text.now place self.now.bytes.items) }
        ensures whole { (more : List ℕ) → drop place text.now ≡ self.now.bytes.items ++ more → Gives (λ behind. drop behind text.now ≡ more) result }
    {
        let same = same_len(&text[place..], &self.bytes);
        if same < self.bytes.len() {
            return Err(CheckStop::Refused {
                left: text.len() - place - same,
            });
        }
        Ok(place + same)
    }
}

impl Sink for Draft {
    ghost state = { draft_state };

    fn put(&mut self, piece: &[u8]) -> Result<(), PutFailed> {
        match self.bytes.extend_from_slice(piece) {
            Ok(()) => Ok(()),
            Err(_) => {
                self.faults = self.faults.saturating_add(1);
                Err(PutFailed)
            }
        }
    }
}

// The number of bytes with which two texts begin alike.
fn same_len(text: &[u8], other: &[u8]) -> usize
    ensures text { result ≤ length text.now }
    ensures other { result ≤ length other.now }
    ensures same { take result text.now ≡ take result other.now }
    ensures most { (more : List ℕ) → text.now ≡ other.now ++ more → result ≡ length other.now }
{
    let most = text.len().min(other.len());
    for place in 0..most {
        if text[place] != other[place] {
            return place;
        }
    }
    most
}
