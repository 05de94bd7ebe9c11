//! Runs cases: standard input has the words and the files of each, and what its runs write is printed.
//! A line of the input is a line of a file after a bar, or a verb with its text; docs/cases.md has the verbs.
//! The program judges nothing: the file `stdin` has the cases, and the file `stdout` has what they must print.
#![tactic(auto)]

mod failing_sinks;
mod hinted;
mod lines;
mod open_file;
mod real_files;
mod runs;
mod shown;
mod test_case;

use crate::lines::take_line;
use crate::real_files::take_real;
use crate::test_case::TestCase;
use itv_base::NoMemory;
use std::io::{self, ErrorKind};
use std::rt::Files;

fn main(rt: HostRuntime) -> io::Result<()> {
    match TestCase::new(rt.alloc()) {
        Ok(mut case) => {
            let taken = take_lines(&rt, &mut case);
            drop(case);
            taken
        }
        Err(NoMemory) => Err(io::Error::from(ErrorKind::OutOfMemory)),
    }
}

// Takes the lines of standard input, and prints what comes of each.
fn take_lines(
    rt: &(impl Files + Input + Print + AllocGlobal),
    case: &mut TestCase,
) -> io::Result<()> {
    let alloc = rt.alloc();
    let mut out = String::new(alloc);
    for line in rt.lines(alloc) {
        let line = line?;
        if let Err(NoMemory) = take(rt, line.as_str(), case, &mut out) {
            return Err(io::Error::from(ErrorKind::OutOfMemory));
        }
        if !out.is_empty() {
            rt.print(out.as_str())?;
            out.clear();
        }
    }
    Ok(())
}

// Takes a line. A verb that begins with `real` reaches the system.
fn take(
    rt: &(impl Files + Print + AllocGlobal),
    line: &str,
    case: &mut TestCase,
    out: &mut String,
) -> Result<(), NoMemory> {
    match line.strip_prefix("real ") {
        Some(text) => take_real(rt, text, case, out),
        None => take_line(rt.alloc(), line, case, out),
    }
}
