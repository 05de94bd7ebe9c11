//! All memory that a text is written with.

ghost use Rattle.std.specs.Prelude.{IfOk};
ghost use Rattle.falling.specs.View.{IsViewOf};
ghost use Rattle.job_fall.specs.Step.{IsSet};

use event_graph::Network;
use falling::{Falling, View};
use itv_base::NoMemory;
use line_words::LineBuffer;
use slack_report::LINE_ROOM;
use std::alloc::Global;

/// All memory that a text is written with: the solver and its memory, a time in picoseconds for each event, and room
/// for a line.
#[derive(Drop)]
pub struct Desk {
    pub solver: Falling,
    pub times: Vec<i64>,
    pub buffer: LineBuffer,
}

impl Desk {
    /// Takes all memory for a network that is solved in a view, or returns `NoMemory`.
    pub fn new(alloc: Global, net: &Network, view: View) -> Result<Desk, NoMemory>
        requires view { IsViewOf net.now view }
        ensures set { IfOk result (IsSet net.now) }
    {
        Ok(Desk {
            solver: Falling::new(alloc, net, view)?,
            times: Vec::from_elem(alloc, 0, net.events() as usize)?,
            buffer: LineBuffer::new(alloc, LINE_ROOM)?,
        })
    }
}
