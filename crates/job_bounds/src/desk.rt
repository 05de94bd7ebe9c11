//! All memory that a report is written with.

ghost use Rattle.std.specs.Prelude.{◌≡◌, IfOk};
ghost use Rattle.job_bounds.specs.Step.Ready.{IsSet};

use crate::bound_witness::BoundWitness;
use branch::Work;
use event_graph::Network;
use itv_base::NoMemory;
use line_words::LineBuffer;
use slack_report::LINE_ROOM;
use std::alloc::Global;

/// All memory that a report is written with: the memory of the searches, what is kept of the search for the greatest bound of a row and of the search
/// for the least, and room for a line.
#[derive(Drop)]
pub struct Desk {
    pub work: Work,
    pub greatest: BoundWitness,
    pub least: BoundWitness,
    pub buffer: LineBuffer,
}

impl Desk {
    /// Takes all memory that the report on a network needs, or answers `NoMemory`.
    pub fn new(alloc: Global, net: &Network) -> Result<Desk, NoMemory>
        ensures set { IfOk result (IsSet net.now) }
    {
        Ok(Desk {
            buffer: LineBuffer::new(alloc, LINE_ROOM)?,
            greatest: BoundWitness::new(alloc, net.events())?,
            least: BoundWitness::new(alloc, net.events())?,
            work: Work::new(alloc, net)?,
        })
    }
}
