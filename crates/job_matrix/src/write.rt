//! Writing a matrix.

ghost use Rattle.std.specs.Prelude.{◌≤◌};
ghost use Rattle.itv_base.specs.Outside.{Puts};
ghost use Rattle.itv_base.specs.declared.limits.TheConstants.{MAX_MATRIX_EVENTS};
ghost use Rattle.job_base.specs.JobWrote.{Answered, JobWrote};
ghost use Rattle.minplus.specs.Matrix.{IsSquare};
ghost use Rattle.slack_report.specs.Entry.{finding};
ghost use Rattle.slack_report.specs.Text.{entry_text};
ghost use Rattle.requirements.specs.declared.consistency.Consistency.TheVariants.{Inconsistent};
ghost use Rattle.job_matrix.specs.Matrix.{AnswersMatrix, matrix_text};
ghost use Rattle.job_matrix.specs.Step.{entries_of};

use crate::lines::put_rows;
use drawn_networks::DrawnNetwork;
use itv_base::{PutFailed, Sink};
use job_base::{Answer, Unanswered, put_events};
use line_words::LineBuffer;
use minplus::{Matrix, MatrixFault, closure};
use requirements::Consistency;
use slack_report::{Item, LINE_ROOM, write_item};
use std::alloc::Global;

/// Writes the root bounds of all pairs of events of a drawn network, in picoseconds, or that no times meet its always-edges. All
/// memory is taken before the first put, and each line is written by one put.
pub fn write_matrix<K: Sink>(
    alloc: Global,
    drawn: &DrawnNetwork,
    sink: &mut K,
) -> Result<Answer, Unanswered>
    requires events { drawn.now.net.events ≤ MAX_MATRIX_EVENTS }
    ensures works { JobWrote (AnswersMatrix drawn.now) (Answered (AnswersMatrix drawn.now))
        (K.state sink.old) (K.state sink.new) result }
{
    let mut buffer = LineBuffer::new(alloc, LINE_ROOM)?;
    match closure(alloc, drawn.network()) {
        Ok(matrix) => {
            put_matrix(drawn, &matrix, &mut buffer, sink)?;
            Ok(Answer::AllPass)
        }
        Err(MatrixFault::Loop) => {
            put_inconsistent(&mut buffer, sink)?;
            Ok(Answer::Inconsistent)
        }
        Err(MatrixFault::NoMemory) => Err(Unanswered::NoMemory),
        Err(MatrixFault::TooMany(_)) => unreachable!(),
    }
}

// Writes the line that no times meet the always-edges.
fn put_inconsistent<K: Sink>(buffer: &mut LineBuffer, sink: &mut K) -> Result<(), PutFailed>
    ensures { Puts (K.state sink.old) (K.state sink.new) (entry_text (finding Inconsistent)) result }
{
    write_item(&Item::Finding(Consistency::Inconsistent), buffer, sink)
}

// Writes the heading, the events and the rows.
fn put_matrix<K: Sink>(
    drawn: &DrawnNetwork,
    matrix: &Matrix,
    buffer: &mut LineBuffer,
    sink: &mut K,
) -> Result<(), PutFailed>
    requires square { IsSquare drawn.now.net.events matrix.now }
    ensures { Puts (K.state sink.old) (K.state sink.new) (matrix_text drawn.now.names (entries_of matrix.now)) result }
{
    sink.put(b"itv matrix 1\n")?;
    put_events(drawn, buffer, sink)?;
    put_rows(matrix, drawn.network().events(), buffer, sink)
}
