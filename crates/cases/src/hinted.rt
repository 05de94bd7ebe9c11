//! What is said after a run of a case.

use crate::runs::put_end;
use crate::test_case::TestCase;
use hints::{Looked, NameLook, said_after};
use itv_base::{NoMemory, SinkMem};
use itv_cli::run;
use std::alloc::Global;

// Room in bytes for what these runs write.
const ROOM: u32 = 4_000_000;

// What is under a name, as the name says. Nobody reads the output.
#[derive(Clone, Copy)]
struct ByName;

impl NameLook for ByName {
    fn look(&self, name: &str) -> Looked {
        match name {
            "folder" => Looked::Folder,
            "pipe" => Looked::Pipe,
            _ if name.is_empty() || name.starts_with("absent") => Looked::Absent,
            _ => Looked::File,
        }
    }

    fn is_denied(&self, name: &str) -> bool {
        name == "secret"
    }

    fn is_output_closed(&self) -> bool {
        true
    }
}

/// Shows what is said after a run of a case, each line after a bar; or what would be said after a run with the status that a text names.
pub fn show_hint(
    alloc: Global,
    text: &str,
    case: &mut TestCase,
    out: &mut String,
) -> Result<(), NoMemory> {
    let status = match text.parse::<u8>() {
        Ok(status) => status,
        Err(_) => status_of_run(alloc, case, out)?,
    };
    let said = said_after(alloc, &case.words, status, &mut case.shelf, &ByName)?;
    for line in said.lines() {
        out.push_str("|")?;
        out.push_str(line)?;
        out.push_str("\n")?;
    }
    Ok(())
}

// The status of a run. How it ends is shown.
fn status_of_run(alloc: Global, case: &mut TestCase, out: &mut String) -> Result<u8, NoMemory> {
    let mut sink = SinkMem::new(alloc, ROOM)?;
    let outcome = run(alloc, &case.words, &mut case.shelf, &mut sink);
    put_end(outcome, case, out)?;
    Ok(outcome.code())
}
