//! Measured times.

ghost use Rattle.std.specs.Prelude.{All};
ghost use Rattle.measured_times.specs.Runs.{IsRunFor};

use crate::edit_files::drawn_of;
use crate::out::Out;
use crate::writing::{bytes_of, put_bytes};
use drawn_networks::DrawnNetwork;
use itv_base::SinkMem;
use job_measure::write_measure;
use measured_times::{MeasuredRun, MeasuredRuns, read_times};
use std::alloc::Global;

/// Writes the runs of a file, or its fault. The row has a number of events and the text of the file.
pub fn times(alloc: Global, row: &str, out: &mut Out) {
    match counted(alloc, row) {
        Some((events, bytes)) => {
            put_read(alloc, events, &bytes, out);
            drop(bytes);
        }
        None => out.refuse(),
    }
}

// A number of events, and the bytes of a file, as in `2 times 0 *\n`.
fn counted(alloc: Global, row: &str) -> Option<(u32, Vec<u8>)> {
    let (events, text) = row.split_once(' ')?;
    let events = events.parse::<u32>().ok()?;
    Some((events, bytes_of(alloc, text)?))
}

fn put_read(alloc: Global, events: u32, bytes: &[u8], out: &mut Out) {
    match read_times(alloc, events, bytes) {
        Ok(runs) => {
            out.put("runs");
            put_runs(runs.as_slice(), out);
            drop(runs);
        }
        Err(fault) => out.put_shown(&fault),
    }
}

fn put_runs(runs: &[MeasuredRun], out: &mut Out) {
    for run in runs {
        out.put(" :");
        put_times(run.as_slice(), out);
    }
}

fn put_times(times: &[Option<i64>], out: &mut Out) {
    for time in times {
        out.put(" ");
        out.put_end(*time);
    }
}

/// Writes what job measure writes. The row has a tolerance and the text of a file of measured times. The subject has the files of the design, as
/// for edits.
pub fn measure(alloc: Global, subject: &str, row: &str, out: &mut Out) {
    match drawn_of(alloc, subject) {
        Some(drawn) => {
            put_row(alloc, &drawn, row, out);
            drop(drawn);
        }
        None => out.refuse(),
    }
}

fn put_row(alloc: Global, drawn: &DrawnNetwork, row: &str, out: &mut Out) {
    match counted(alloc, row) {
        Some((within, bytes)) => {
            put_measured(alloc, drawn, within, &bytes, out);
            drop(bytes);
        }
        None => out.refuse(),
    }
}

fn put_measured(alloc: Global, drawn: &DrawnNetwork, within: u32, bytes: &[u8], out: &mut Out) {
    match read_times(alloc, drawn.network().events(), bytes) {
        Ok(runs) => {
            put_text(alloc, drawn, within, &runs, out);
            drop(runs);
        }
        Err(fault) => out.put_shown(&fault),
    }
}

fn put_text(alloc: Global, drawn: &DrawnNetwork, within: u32, runs: &MeasuredRuns, out: &mut Out)
    requires { All (IsRunFor drawn.now.net.events) runs.now }
{
    match SinkMem::new(alloc, 10_000) {
        Ok(mut sink) => {
            match write_measure(alloc, drawn, u64::from(within), runs, &mut sink) {
                Ok(_) => put_bytes(sink.bytes(), out),
                Err(_) => out.refuse(),
            }
            drop(sink);
        }
        Err(_) => out.refuse(),
    }
}
