//! Reading the grades of a tree.

ghost use Rattle.std.specs.Prelude.{◌≡◌, []};
ghost use Rattle.serde_json.specs.View.{view};
ghost use Rattle.itv_base.specs.Reading.{AgreesWith, walk};
ghost use Rattle.json_tree.specs.Pairs.{ends_view};
ghost use Rattle.grades.specs.Fault.{is_memory};
ghost use Rattle.grades.specs.Grades.{grades_of, range_for, with_grade, with_parameter};

use crate::fault::GradesFault;
use crate::grade::{Grade, Parameter, Parameters};
use crate::loose::{LooseGrade, LooseParameter, written_grades};
use crate::table::Grades;
use itv_base::{Listing, Range, RangeFault, Text};
use json_tree::EndPair;
use serde_json::Value;
use std::alloc::Global;

/// The grades of a tree, or their first fault in the order of [`GradesFault`].
///
/// `itv_grades` is an object from the names of grades to objects from the names of parameters to lists of two ends in picoseconds, each a whole
/// number or null. Null is an open end. A name is 1 to 16 ASCII letters, digits or `_`. A tree without the key has no grades.
///
/// `NoMemory` may come in place of the grades or a fault. After any fault there are no grades.
pub fn read_grades(alloc: Global, tree: &Value) -> Result<Grades, GradesFault>
    ensures answer { AgreesWith is_memory (λ grades. grades) result (grades_of (view tree.now)) }
{
    let Some(written) = written_grades(alloc, tree)? else {
        return Err(GradesFault::Grades);
    };
    let grades = ranged_grades(alloc, written.as_slice())?;
    Ok(Grades { grades })
}

// The grades with their ranges, or the first fault of a range.
fn ranged_grades(alloc: Global, written: &[LooseGrade]) -> Result<Listing<Grade>, GradesFault>
    ensures { AgreesWith is_memory (λ grades. grades) result (walk with_grade 0 [] written.now) }
{
    let mut grades = Listing::new(alloc);
    for (g, grade) in written.iter().enumerate() {
        push_grade(alloc, &mut grades, g as u64, grade)?;
    }
    Ok(grades)
}

// Puts grade g at the end, or returns the first fault of its ranges.
fn push_grade(
    alloc: Global,
    grades: &mut Listing<Grade>,
    g: u64,
    grade: &LooseGrade,
) -> Result<(), GradesFault>
    ensures { AgreesWith is_memory (λ _. grades.new) result (with_grade g grades.old grade.now) }
{
    let parameters = ranged_parameters(alloc, g, grade.parameters.as_slice())?;
    grades.push(Grade {
        name: Text::from_text(alloc, grade.name.as_text())?,
        parameters,
    })?;
    Ok(())
}

// The parameters of grade g with their ranges, or the first fault of a range.
fn ranged_parameters(
    alloc: Global,
    g: u64,
    written: &[LooseParameter],
) -> Result<Parameters, GradesFault>
    ensures { AgreesWith is_memory (λ parameters. parameters) result (walk (with_parameter g) 0 [] written.now) }
{
    let mut parameters = Parameters::new(alloc);
    for (p, parameter) in written.iter().enumerate() {
        push_parameter(alloc, &mut parameters, g, p as u64, parameter)?;
    }
    Ok(parameters)
}

// Puts parameter p of grade g at the end, or returns the fault of its range.
fn push_parameter(
    alloc: Global,
    parameters: &mut Parameters,
    g: u64,
    p: u64,
    parameter: &LooseParameter,
) -> Result<(), GradesFault>
    ensures { AgreesWith is_memory (λ _. parameters.new) result (with_parameter g p parameters.old parameter.now) }
{
    let range = range_for(g, p, parameter.ends)?;
    parameters.push(Parameter {
        name: Text::from_text(alloc, parameter.name.as_text())?,
        range,
    })?;
    Ok(())
}

// The range of the two ends of parameter p of grade g, or its fault.
fn range_for(g: u64, p: u64, ends: EndPair) -> Result<Range, GradesFault>
    ensures { AgreesWith is_memory (λ range. range) result (range_for g p (ends_view ends)) }
{
    match Range::new(ends.low, ends.high) {
        Ok(range) => Ok(range),
        Err(RangeFault::TooWide) => Err(GradesFault::Limits(g, p, RangeFault::TooWide)),
        Err(RangeFault::EmptyRange) => Err(GradesFault::Limits(g, p, RangeFault::EmptyRange)),
    }
}
