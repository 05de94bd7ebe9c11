//! Why the speed grades of a sheet are refused, or are not what a part or a label needs.

use crate::edge::Edge;
use crate::hint::Hint;
use crate::label_fault::EMPTY_RANGE;
use crate::sheet_fault::RefusedSheet;
use crate::source::Source;
use crate::tree::{is_ends, put_ends_fault};
use itv_base::{RangeFault, is_name, split_name};
use json_places::Step;
use netlist::{Netlist, Part};
use serde_json::{Map, Value};
use sheet::GradesFault;

// The key of the grades.
const GRADES: &str = "itv_grades";

// What a name is.
const NAME: &str = "a name has 1 to 16 letters, digits or _";

/// Why the speed grades of a tree are refused.
pub fn put_grades_fault(hint: &mut Hint, sheet: RefusedSheet<'_>, fault: GradesFault) {
    match fault {
        GradesFault::Grades => put_form_fault(hint, sheet),
        GradesFault::Limits(grade, parameter, fault) => {
            put_limits_fault(hint, sheet, grade as usize, parameter as usize, fault)
        }
        GradesFault::NoMemory => hint.cut(),
    }
}

// The first grade or parameter that does not have its form, or that the grades are no object.
fn put_form_fault(hint: &mut Hint, sheet: RefusedSheet<'_>) {
    match object_of(sheet.tree.get(GRADES)) {
        Some(grades) => put_first_fault(hint, sheet.source, grades),
        None => {
            sheet.source.begin_at_value(hint, &[Step::Key(GRADES)]);
            put_key(hint);
            hint.put(" is not an object from names of grades to objects");
        }
    }
}

// The key of the grades in quotes.
fn put_key(hint: &mut Hint) {
    hint.put("\"");
    hint.put(GRADES);
    hint.put("\"");
}

fn put_first_fault(hint: &mut Hint, source: Source<'_>, grades: &Map<String, Value>) {
    for (name, value) in grades.iter() {
        if has_grade_fault(hint, source, name.as_str(), value) {
            return;
        }
    }
}

// Puts what is wrong with the form of a grade. Whether anything is.
fn has_grade_fault(hint: &mut Hint, source: Source<'_>, name: &str, value: &Value) -> bool {
    if !is_name(name) {
        put_about_grade(hint, source, name, NAME);
        return true;
    }
    let Some(parameters) = value.as_object() else {
        put_about_grade(hint, source, name, NO_PARAMETERS);
        return true;
    };
    let Some((parameter, ends)) = first_misfit(parameters) else {
        return false;
    };
    begin_at_parameter(hint, source, name, parameter);
    put_parameter_fault(hint, parameter, ends);
    true
}

const NO_PARAMETERS: &str = "expected an object from names to lists of two ends";

// What is said of a grade.
fn put_about_grade(hint: &mut Hint, source: Source<'_>, name: &str, says: &str) {
    source.begin_at_value(hint, &[Step::Key(GRADES), Step::Key(name)]);
    put_grade(hint, name);
    hint.put(says);
}

// Begins a line about a parameter of a grade.
fn begin_at_parameter<'x>(hint: &mut Hint, source: Source<'_>, grade: &'x str, parameter: &'x str) {
    source.begin_at_value(
        hint,
        &[Step::Key(GRADES), Step::Key(grade), Step::Key(parameter)],
    );
    put_grade(hint, grade);
}

// A grade, before what is said of it.
fn put_grade(hint: &mut Hint, name: &str) {
    hint.put("grade ");
    hint.put_quoted(name);
    hint.put(" of ");
    put_key(hint);
    hint.put(": ");
}

// The first of some parameters that does not have its form.
fn first_misfit(parameters: &Map<String, Value>) -> Option<(&str, &Value)> {
    for (name, value) in parameters.iter() {
        if !is_name(name.as_str()) || !is_ends(value) {
            return Some((name.as_str(), value));
        }
    }
    None
}

// What is wrong with the form of a parameter.
fn put_parameter_fault(hint: &mut Hint, name: &str, value: &Value) {
    if is_name(name) {
        hint.put_quoted(name);
        hint.put(" ");
        put_ends_fault(hint, value);
    } else {
        hint.put("the name ");
        hint.put_quoted(name);
        hint.put(": ");
        hint.put(NAME);
    }
}

// The ends of a parameter are no range. Grades and parameters have numbers in the order of their names.
fn put_limits_fault(
    hint: &mut Hint,
    sheet: RefusedSheet<'_>,
    grade: usize,
    parameter: usize,
    fault: RangeFault,
) {
    let Some((grade, value)) = member_at(sheet.tree.get(GRADES), grade) else {
        return;
    };
    let name = match member_at(Some(value), parameter) {
        Some((name, _)) => name,
        None => "",
    };
    begin_at_parameter(hint, sheet.source, grade, name);
    hint.put_quoted(name);
    hint.put(": ");
    hint.put(range_says(fault));
}

/// What is said of two ends of a list that are no range.
pub fn range_says(fault: RangeFault) -> &'static str {
    match fault {
        RangeFault::TooWide => "an end is beyond 10,000,000,000,000 ps: an open end is null",
        RangeFault::EmptyRange => EMPTY_RANGE,
    }
}

fn object_of(value: Option<&Value>) -> Option<&Map<String, Value>> {
    value?.as_object()
}

// The member of an object with a number, in the order of the names, if there is such an object.
fn member_at(value: Option<&Value>, k: usize) -> Option<(&str, &Value)> {
    for (place, (name, value)) in object_of(value)?.iter().enumerate() {
        if place == k {
            return Some((name.as_str(), value));
        }
    }
    None
}

// The names of the members of an object, or that there are none.
fn put_members(hint: &mut Hint, value: Option<&Value>, one: &str, many: &str) {
    match object_of(value) {
        Some(map) => put_names(hint, map, one, many),
        None => hint.put_what(0, one, many),
    }
}

fn put_names(hint: &mut Hint, map: &Map<String, Value>, one: &str, many: &str) {
    let count = map.len() as u64;
    hint.put_what(count, one, many);
    for (k, (name, _)) in map.iter().enumerate() {
        hint.put_name(k as u64, count, name.as_str());
    }
}

/// A part on this file names a grade that is not there.
pub fn put_grade_missing(hint: &mut Hint, sheet: RefusedSheet<'_>) {
    let grades = sheet.tree.get(GRADES);
    let Some(netlist) = sheet.netlist else {
        return;
    };
    for part in netlist.parts().as_slice() {
        if part.sheet.as_text() == sheet.source.name && lacks_grade(part, grades) {
            sheet.source.begin_at_value(hint, &[Step::Key(GRADES)]);
            put_lacked(hint, part, grades);
            return;
        }
    }
}

// A part names a grade that is not among these.
fn put_lacked(hint: &mut Hint, part: &Part, grades: Option<&Value>) {
    hint.put("part ");
    hint.put(part.name.as_text());
    hint.put(" names grade ");
    hint.put_quoted(grade_of(part));
    hint.put(", which this sheet does not have; ");
    put_members(hint, grades, "grade", "grades");
}

fn grade_of(part: &Part) -> &str {
    match &part.grade {
        Some(grade) => grade.as_text(),
        None => "",
    }
}

// Whether a part names a grade that is not among these.
fn lacks_grade(part: &Part, grades: Option<&Value>) -> bool {
    part.grade.is_some() && grade_in(part, grades).is_none()
}

/// The label of an edge names a parameter that the grade of a part on this file does not have.
pub fn put_parameter_missing(hint: &mut Hint, sheet: RefusedSheet<'_>, edge: Edge<'_>) {
    let (_, rest) = edge.text.split_once(" $").unwrap_or(("", ""));
    let (parameter, _) = split_name(rest);
    let grades = sheet.tree.get(GRADES);
    let Some(netlist) = sheet.netlist else {
        return;
    };
    for part in netlist.parts().as_slice() {
        if part.sheet.as_text() == sheet.source.name && !has_parameter(part, grades, parameter) {
            edge.begin_at_rest(hint, rest);
            put_lacking(hint, part, grades, parameter);
            return;
        }
    }
}

// Whether the grade of a part has a parameter of a name.
fn has_parameter(part: &Part, grades: Option<&Value>, parameter: &str) -> bool {
    match grade_in(part, grades) {
        Some(grade) => grade.get(parameter).is_some(),
        None => false,
    }
}

// The grade of a part.
fn grade_in<'v>(part: &Part, grades: Option<&'v Value>) -> Option<&'v Value> {
    match (&part.grade, grades) {
        (Some(grade), Some(grades)) => grades.get(grade.as_text()),
        _ => None,
    }
}

// What a part lacks for a parameter.
fn put_lacking(hint: &mut Hint, part: &Part, grades: Option<&Value>, parameter: &str) {
    match &part.grade {
        Some(grade) => {
            hint.put("grade ");
            hint.put_quoted(grade.as_text());
            hint.put(" of part ");
            hint.put(part.name.as_text());
            hint.put(" has no ");
            hint.put_quoted(parameter);
            hint.put("; ");
            put_members(hint, grade_in(part, grades), "name", "names");
        }
        None => put_ungraded(hint, part, grades, parameter),
    }
}

// A part has no grade that would give a parameter its ends.
fn put_ungraded(hint: &mut Hint, part: &Part, grades: Option<&Value>, parameter: &str) {
    hint.put("part ");
    hint.put(part.name.as_text());
    hint.put(" has no grade, which would give ");
    hint.put_quoted(parameter);
    hint.put(" its ends; ");
    put_members(hint, grades, "grade", "grades");
}
