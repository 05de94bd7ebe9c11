//! Reading a file of edits.

ghost use Rattle.std.specs.Prelude.{◌≡◌, ◌≤◌, List, All, IfOk, count_by, length};
ghost use Rattle.std.specs.List.{slice_split};
ghost use Rattle.itv_base.specs.Reading.{AgreesWith};
ghost use Rattle.line_words.specs.Lines.{is_feed};
ghost use Rattle.range_edits.specs.Subject.{IsThere};
ghost use Rattle.range_edits.specs.EditsFile.{edits_from, edits_of, is_ended, is_memory, line_count};
ghost use Rattle.range_edits.specs.declared.edit.RangeEdit.{RangeEdit};

use crate::edit::{Edits, RangeEdit};
use crate::fault::EditsFault;
use crate::line::read_edit;
use drawn_networks::DrawnNetwork;
use line_words::cut_line;
use std::alloc::Global;

/// The most bytes of a file of edits.
pub const MAX_EDITS_BYTES: usize = 1_048_576;

/// The most lines of a file of edits.
pub const MAX_EDITS: u64 = 1_000;

/// Reads a file of edits of a drawn network. Each edit is a line `set SUBJECT [l,u]` with a line end. SUBJECT is `C.I`, the numbers of a
/// constraint and of one of its causes; or `PART edge N`, `net N` or `wire N`: each cause that this edge of the part's sheet, this net, or this
/// edge of the netlist draws. All numbers count from 0. `[l,u]` is the range that the causes are to have, in picoseconds, `*` where open. The
/// first of these faults is reported: the file is too long, it has too many lines, or a line has a fault, and then the first such line. Within a
/// line the form is judged first, then its range, and then whether there is such a cause. Bytes after the last line end are a line that is not
/// of the form.
pub fn read_edits(alloc: Global, drawn: &DrawnNetwork, bytes: &[u8]) -> Result<Edits, EditsFault>
    ensures read { AgreesWith is_memory (λ (edits : List RangeEdit). edits) result (edits_of drawn.now bytes.now) }
    ensures there { IfOk result (All (IsThere drawn.now)) }
{
    if MAX_EDITS_BYTES < bytes.len() {
        return Err(EditsFault::TooLong);
    }
    let count = line_count(bytes);
    if MAX_EDITS < count {
        return Err(EditsFault::TooMany(count));
    }
    read_lines(alloc, drawn, bytes)
}

// How many lines there are.
fn line_count(bytes: &[u8]) -> u64
    ensures { result ≡ line_count bytes.now }
{
    let count = feeds(bytes) as u64;
    if is_ended(bytes) { count } else { count + 1 }
}

fn feeds(bytes: &[u8]) -> usize
    ensures count { result ≡ count_by is_feed bytes.now }
    ensures within { result ≤ length bytes.now }
{
    bytes.iter().filter(|b| **b == b'\n').count()
}

// Whether nothing stands after the last line end.
fn is_ended(bytes: &[u8]) -> bool
    ensures { result ≡ is_ended bytes.now }
{
    match bytes.last() {
        None => true,
        Some(b) => *b == b'\n',
    }
}

// The edits of any number of bytes, in any number of lines.
fn read_lines(alloc: Global, drawn: &DrawnNetwork, bytes: &[u8]) -> Result<Edits, EditsFault>
    ensures { AgreesWith is_memory (λ (edits : List RangeEdit). edits) result (edits_from drawn.now 1 (slice_split is_feed bytes.now)) }
{
    let mut edits: Vec<RangeEdit> = Vec::new(alloc);
    let mut rest = bytes;
    while let Some((line, behind)) = cut_line(rest) {
        let edit = read_edit(alloc, drawn, edits.len() as u64 + 1, line)?;
        edits.push(edit)?;
        rest = behind;
    }
    if !rest.is_empty() {
        return Err(EditsFault::Line(edits.len() as u64 + 1));
    }
    Ok(Edits::from(edits))
}
