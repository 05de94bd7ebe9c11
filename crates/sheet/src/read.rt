//! Reading a sheet from a drawing.

ghost use Rattle.std.specs.Prelude.{IfOk, IfSome};
ghost use Rattle.std.specs.Option.{option_copied};
ghost use Rattle.grades.specs.Grades.{HasRanges};
ghost use Rattle.sheet.specs.Fault.{is_memory};
ghost use Rattle.itv_base.specs.Reading.{AgreesWith};
ghost use Rattle.sheet.specs.Links.{plain};
ghost use Rattle.sheet.specs.Sheet.{grade_named, sheet_at, sheet_of};
ghost use Rattle.sheet.specs.Step.{labels_view, AreWholeLabels};

use crate::edges::{EdgeRules, read_edges};
use crate::fault::SheetFault;
use crate::labels::Labels;
use crate::lanes::{LaneMarks, read_marks};
use crate::order::push_lane_orders;
use crate::pins::read_pins;
use crate::sheet::Sheet;
use grades::{Grade, Grades};
use itv_base::copied_texts;
use std::alloc::Global;
use wavejson::Diagram;

/// The sheet of a drawing, or its first fault in the order of [`SheetFault`].
///
/// A mark is a visible character of ASCII other than `.` in a lane's `node`; its kind is what the lane's wave draws at that
/// place. A pin is a lane with a name and a mark. The rules are the order of the marks on each lane with a name and a wave, and
/// then what the timing labels of the edges say; an edge whose label does not begin with `@` means nothing. Ranges are in
/// picoseconds and shifts in cycles.
///
/// `NoMemory` may come in place of a sheet or a fault. After any fault no sheet was made.
pub fn read_sheet(alloc: Global, diagram: &Diagram) -> Result<Sheet, SheetFault>
    ensures answer { AgreesWith is_memory (λ sheet. sheet) result (sheet_of plain diagram.now) }
{
    read_with(alloc, Labels::Plain, diagram)
}

/// The sheet of a drawing at one of these grades or at none, or its first fault in the order of [`SheetFault`].
///
/// It is what [`read_sheet`] gives, except that a label may name a parameter, as in `@late $tAA`. The range of such a label is the range
/// that the grade gives for the name.
///
/// `NoMemory` may come in place of a sheet or a fault. After any fault no sheet was made.
pub fn read_sheet_at(
    alloc: Global,
    diagram: &Diagram,
    grades: &Grades,
    grade: Option<&str>,
) -> Result<Sheet, SheetFault>
    ensures answer { AgreesWith is_memory (λ sheet. sheet) result (sheet_at grades.now (option_copied grade.entry) diagram.now) }
{
    let grade = match grade_named(grades, grade) {
        Ok(grade) => grade,
        Err(fault) => return Err(fault),
    };
    read_with(alloc, Labels::Graded(grade), diagram)
}

// The grade of a name, if one is named.
fn grade_named<'g>(grades: &'g Grades, name: Option<&str>) -> Result<Option<&'g Grade>, SheetFault>
    ensures grade { AgreesWith is_memory (λ grade. option_copied grade) result (grade_named grades.now (option_copied name.entry)) }
    ensures ranges { IfOk result (λ grade. IfSome (option_copied grade) HasRanges) }
{
    let Some(name) = name else {
        return Ok(None);
    };
    match grades.grade(name) {
        Some(grade) => Ok(Some(grade)),
        None => Err(SheetFault::NoGrade),
    }
}

// The sheet of a drawing, with its labels read in this way.
fn read_with(alloc: Global, labels: Labels<'_>, diagram: &Diagram) -> Result<Sheet, SheetFault>
    requires { AreWholeLabels (labels_view labels) }
    ensures { AgreesWith is_memory (λ sheet. sheet) result (sheet_of (labels_view labels.entry) diagram.now) }
{
    let lanes = diagram.lanes();
    let LaneMarks { marks, spans } = read_marks(alloc, lanes)?;
    let pins = read_pins(alloc, lanes, &spans)?;
    let mut rules = Vec::new(alloc);
    push_lane_orders(alloc, &mut rules, lanes, &spans)?;
    let EdgeRules { rules, rows } = read_edges(
        alloc,
        labels,
        marks.as_slice(),
        diagram.edges(),
        rules,
    )?;
    let edges = copied_texts(alloc, diagram.edges())?;
    let near = copied_texts(alloc, diagram.near())?;
    Ok(Sheet {
        marks,
        pins,
        rules,
        rows,
        edges,
        near,
    })
}
