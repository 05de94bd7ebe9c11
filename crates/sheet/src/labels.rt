//! How the labels of a sheet are read.

ghost use Rattle.std.specs.Prelude.{◌≡◌, option_map, option_and_then};
ghost use Rattle.std.specs.Option.{option_copied};
ghost use Rattle.itv_base.specs.Reading.{AgreesWith};
ghost use Rattle.label_grammar.specs.Label.{label_view, span_view};
ghost use Rattle.grades.specs.Grades.{range_in};
ghost use Rattle.sheet.specs.Fault.{is_memory};
ghost use Rattle.sheet.specs.Links.{label_in, span_ends, plain, graded};
ghost use Rattle.sheet.specs.Step.{labels_view};

use crate::fault::SheetFault;
use grades::Grade;
use itv_base::Range;
use label_grammar::{Label, Span, read_label, read_label2};

/// How the labels of a sheet are read.
#[derive(Clone, Copy)]
pub enum Labels<'a> {
    /// In version 1: each label gives its range itself.
    Plain,
    /// In version 2: a label that names a parameter has the range that the grade gives, if there is one.
    Graded(Option<&'a Grade>),
}

/// The label of edge n, with its range.
pub fn read_label_in<'a>(labels: Labels<'_>, n: u64, text: &'a str) -> Result<Label<'a>, SheetFault>
    ensures { AgreesWith is_memory label_view result (label_in (labels_view labels.entry) n text.now) }
{
    match labels {
        Labels::Plain => read_plain(n, text),
        Labels::Graded(grade) => read_graded(grade, n, text),
    }
}

// The label of edge n in version 1.
fn read_plain<'a>(n: u64, text: &'a str) -> Result<Label<'a>, SheetFault>
    ensures { AgreesWith is_memory label_view result (label_in plain n text.now) }
{
    match read_label(text) {
        Ok(label) => Ok(label),
        Err(fault) => Err(SheetFault::Label(n, fault)),
    }
}

// The label of edge n in version 2. If it names a parameter, the grade gives its range.
fn read_graded<'a>(grade: Option<&Grade>, n: u64, text: &'a str) -> Result<Label<'a>, SheetFault>
    ensures { AgreesWith is_memory label_view result (label_in (graded (option_copied grade.entry)) n text.now) }
{
    // A `?` on a value that holds a text beside a range gets no proof.
    let label = match read_label2(text) {
        Ok(label) => label,
        Err(fault) => return Err(SheetFault::Label(n, fault)),
    };
    let range = span_range(grade, n, &label.span)?;
    Ok(Label {
        kind: label.kind,
        shift: label.shift,
        tag: label.tag,
        range,
        note: label.note,
    })
}

// The range that edge n gives, if it gives one.
fn span_range(
    grade: Option<&Grade>,
    n: u64,
    span: &Option<Span<'_>>,
) -> Result<Option<Range>, SheetFault>
    ensures { AgreesWith is_memory (λ range. range) result (span_ends n (option_copied grade.entry) (option_map span_view span.now)) }
{
    match span {
        None => Ok(None),
        Some(Span::Fixed(range)) => Ok(Some(*range)),
        Some(Span::Named(name)) => match param_range(grade, name) {
            Some(range) => Ok(Some(range)),
            None => Err(SheetFault::NoParam(n)),
        },
    }
}

// The range that a grade gives for the name of a parameter.
fn param_range(grade: Option<&Grade>, name: &str) -> Option<Range>
    ensures { result ≡ option_and_then (λ g. range_in g name.now) (option_copied grade.entry) }
{
    match grade {
        Some(grade) => grade.range_of(name),
        None => None,
    }
}
