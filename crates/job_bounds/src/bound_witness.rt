//! What is kept of a search for a bound.

ghost use Rattle.std.specs.Prelude.{◌≡◌, ◌<◌, All, IfOk, length};
ghost use Rattle.job_bounds.specs.Step.Witness.{IsShiftedTo};
ghost use Rattle.branch.specs.Work.{IsClose};

use event_graph::move_all;
use itv_base::{EventId, NoMemory};
use std::alloc::Global;

/// Times of all events in picoseconds, and for each event whether it is in the set of events that can be raised by any number.
#[derive(Drop)]
pub struct BoundWitness {
    pub times: Vec<i64>,
    pub set: Vec<bool>,
}

impl BoundWitness {
    /// Places for a number of events, with all times 0 and no event in the set.
    pub fn new(alloc: Global, events: u32) -> Result<BoundWitness, NoMemory>
        ensures times { IfOk result (λ kept. length kept.times.items ≡ events) }
        ensures set { IfOk result (λ kept. length kept.set.items ≡ events) }
    {
        Ok(BoundWitness {
            times: Vec::from_elem(alloc, 0, events as usize)?,
            set: Vec::from_elem(alloc, false, events as usize)?,
        })
    }
}

/// Copies times, each less the time of event `origin`. All times come from a search.
pub fn take_times(out: &mut [i64], times: &[i64], origin: EventId)
    requires count { length times.now ≡ length out.old }
    requires event { origin.0 < length times.now }
    requires close { All IsClose times.now }
    ensures taken { IsShiftedTo origin times.now out.new }
{
    out.copy_from_slice(times);
    move_all(out, origin);
}
