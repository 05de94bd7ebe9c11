//! Reading a line of a file of edits.

ghost use Rattle.std.specs.Prelude.{◌≡◌};
ghost use Rattle.itv_base.specs.Reading.{AgreesWith};
ghost use Rattle.label_grammar.specs.Ends.{judged_alone, only_ends};
ghost use Rattle.label_grammar.specs.Reading.{ends_of};
ghost use Rattle.range_edits.specs.EditLine.{edit_at, edit_named, edit_there, range_judged, subject_of};
ghost use Rattle.range_edits.specs.EditsFile.{is_memory};
ghost use Rattle.range_edits.specs.Step.Named.{subject_view};
ghost use Rattle.range_edits.specs.declared.edit.RangeEdit.{RangeEdit};

use crate::edit::RangeEdit;
use crate::fault::EditsFault;
use crate::named::{Named, named_in, owned_subject};
use drawn_networks::DrawnNetwork;
use itv_base::{Range, RangeFault};
use label_grammar::{LabelFault, read_range};
use std::alloc::Global;

/// The edit of the line with a number, counted from 1. Bytes that are no text are refused as a line that is not of the form.
pub fn read_edit(
    alloc: Global,
    drawn: &DrawnNetwork,
    n: u64,
    line: &[u8],
) -> Result<RangeEdit, EditsFault>
    ensures { AgreesWith is_memory (λ (edit : RangeEdit). edit) result (edit_at drawn.now n line.now) }
{
    match str::from_utf8(line) {
        Ok(text) => edit_in(alloc, drawn, n, text),
        Err(_) => Err(EditsFault::Line(n)),
    }
}

// The edit of a line that is a text.
fn edit_in(alloc: Global, drawn: &DrawnNetwork, n: u64, text: &str) -> Result<RangeEdit, EditsFault>
    ensures { AgreesWith is_memory (λ (edit : RangeEdit). edit) result (edit_named drawn.now n (subject_of text.now)) }
{
    let Some((named, behind)) = named_in(text) else {
        return Err(EditsFault::Line(n));
    };
    let range = range_in(n, behind)?;
    edit_there(alloc, drawn, n, named, range)
}

// The range that stands alone on a line.
fn range_in(n: u64, text: &str) -> Result<Range, EditsFault>
    ensures { result ≡ range_judged n (judged_alone (only_ends (ends_of text.now))) }
{
    match read_range(text) {
        Ok(range) => Ok(range),
        Err(LabelFault::BadLabel) => Err(EditsFault::Line(n)),
        Err(LabelFault::TooWide) => Err(EditsFault::Range(n, RangeFault::TooWide)),
        Err(LabelFault::EmptyRange) => Err(EditsFault::Range(n, RangeFault::EmptyRange)),
    }
}

// The edit of what a line names, if it is there.
fn edit_there(
    alloc: Global,
    drawn: &DrawnNetwork,
    n: u64,
    named: Named<'_>,
    range: Range,
) -> Result<RangeEdit, EditsFault>
    ensures { AgreesWith is_memory (λ (edit : RangeEdit). edit) result
        (edit_there drawn.now n (record { subject = subject_view named.entry; range = range })) }
{
    let subject = owned_subject(alloc, named)?;
    if !subject.is_there(alloc, drawn)? {
        return Err(EditsFault::NoSuch(n));
    }
    Ok(RangeEdit { subject, range })
}
