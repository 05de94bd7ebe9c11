//! Laws of measured times. Each is the contract of a function that does nothing.

ghost use Rattle.measured_times.specs.Laws.{RunLinesAreRead};

/// A line of a file of measured times is read as a run if and only if it is the text of this run, the run has a time or a star for each
/// event, and all times are within their limit.
pub fn run_lines_are_read()
    ensures law { RunLinesAreRead }
{}
