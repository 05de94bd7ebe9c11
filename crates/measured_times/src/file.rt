//! Reading a file of measured times.

ghost use Rattle.std.specs.Prelude.{◌≡◌, All, IfOk};
ghost use Rattle.std.specs.List.{slice_split};
ghost use Rattle.itv_base.specs.Reading.{AgreesWith};
ghost use Rattle.line_words.specs.Lines.{is_feed};
ghost use Rattle.measured_times.specs.Runs.{IsRunFor, is_memory, runs_from, runs_of};

use crate::fault::TimesFault;
use crate::line::read_run;
use crate::run::{MeasuredRun, MeasuredRuns};
use line_words::cut_line;
use std::alloc::Global;

/// The most bytes of a file of measured times.
pub const MAX_TIMES_BYTES: usize = 67_108_864;

const _: () = prove!(MAX_TIMES_BYTES == 64 * 1_024 * 1_024);

/// Reads a file of measured times of a network with so many events. Each run is a line with a line end: the word `times` and, for each
/// event in order, its time in whole picoseconds, at most [`MAX_TIME`](crate::MAX_TIME) in absolute value, or `*` if it was not seen. One
/// space is between two words. A file of no bytes has no runs. The first of these faults is reported: the file is too long, or a line is not
/// the text of a run, and then the first such line. Bytes after the last line end are a line that is not the text of a run.
pub fn read_times(alloc: Global, events: u32, bytes: &[u8]) -> Result<MeasuredRuns, TimesFault>
    ensures read { AgreesWith is_memory (λ runs. runs) result (runs_of events bytes.now) }
    ensures for_events { IfOk result (All (IsRunFor events)) }
{
    if MAX_TIMES_BYTES < bytes.len() {
        return Err(TimesFault::TooLong);
    }
    read_lines(alloc, events, bytes)
}

// The runs of any number of bytes.
fn read_lines(alloc: Global, events: u32, bytes: &[u8]) -> Result<MeasuredRuns, TimesFault>
    ensures { AgreesWith is_memory (λ runs. runs) result (runs_from events 1 (slice_split is_feed bytes.now)) }
{
    let mut runs: Vec<MeasuredRun> = Vec::new(alloc);
    let mut rest = bytes;
    while let Some((line, behind)) = cut_line(rest) {
        let run = read_run(alloc, events, runs.len() as u64 + 1, line)?;
        runs.push(run)?;
        rest = behind;
    }
    if !rest.is_empty() {
        return Err(TimesFault::Line(runs.len() as u64 + 1));
    }
    Ok(MeasuredRuns::from(runs))
}
