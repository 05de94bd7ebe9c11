//! Grades as they are written. Their ends are not yet known to be ranges.

ghost use Rattle.std.specs.Prelude.{◌≡◌, IfOk, codes, option_and_then};
ghost use Rattle.serde_json.specs.Find.{get};
ghost use Rattle.serde_json.specs.View.{view, members_view};
ghost use Rattle.json_tree.specs.Words.{all_of, members, members_of};
ghost use Rattle.grades.specs.Grades.{grade_of, grades_in, written_grades, parameter_of};

use itv_base::{Listing, NoMemory, Text, is_name};
use json_tree::{EndPair, ends_by, list_of};
use serde_json::{Map, Value};
use std::alloc::Global;
use std::marker::Model;

/// A parameter with its two ends.
#[derive(Drop)]
pub struct LooseParameter {
    pub name: Text,
    pub ends: EndPair,
}

impl Model for LooseParameter {
    ghost use Rattle.json_tree.specs.Pairs.{ends_view};
    ghost use Rattle.grades.specs.declared.grade.Parameter.{Parameter};

    ghost Value = { Parameter };

    ghost view = { λ p. record { name = p.name; range = ends_view p.ends } };
}

/// Parameters in the byte order of their names.
pub type LooseParameters = Listing<LooseParameter>;

/// A grade with its parameters.
#[derive(Drop)]
pub struct LooseGrade {
    pub name: Text,
    pub parameters: LooseParameters,
}

impl Model for LooseGrade {
    ghost use Rattle.grades.specs.declared.grade.Grade.{Grade};

    ghost Value = { Grade };

    ghost view = { λ g. record { name = g.name; parameters = g.parameters } };
}

/// Grades in the byte order of their names.
pub type LooseGrades = Listing<LooseGrade>;

/// The grades of a tree. There are none without the key `itv_grades`. The answer is `None` if its value does not have the form of grades.
pub fn written_grades(alloc: Global, tree: &Value) -> Result<Option<LooseGrades>, NoMemory>
    ensures { IfOk result (λ grades. grades ≡ written_grades (get (codes "itv_grades") (view tree.now))) }
{
    match tree.get("itv_grades") {
        Some(value) => listed_grades(alloc, value),
        None => Ok(Some(LooseGrades::new(alloc))),
    }
}

// The grades of a value, or `None` if it does not have the form of grades.
fn listed_grades(alloc: Global, value: &Value) -> Result<Option<LooseGrades>, NoMemory>
    ensures { IfOk result (λ grades. grades ≡ grades_in (view value.now)) }
{
    match value.as_object() {
        Some(map) => grades_in(alloc, map),
        None => Ok(None),
    }
}

// The grades of the members of an object, or `None` if a member is no grade.
fn grades_in(alloc: Global, map: &Map<String, Value>) -> Result<Option<LooseGrades>, NoMemory>
    ensures { IfOk result (λ grades. grades ≡ all_of grade_of (members (members_view map.now.entries))) }
{
    let mut grades = LooseGrades::new(alloc);
    for (name, value) in map.iter() {
        let Some(grade) = grade_of(alloc, name.as_str(), value)? else {
            return Ok(None);
        };
        grades.push(grade)?;
    }
    Ok(Some(grades))
}

// The grade of a member, or `None` if it is no grade.
fn grade_of(alloc: Global, name: &str, value: &Value) -> Result<Option<LooseGrade>, NoMemory>
    ensures { IfOk result (λ grade. grade ≡ grade_of (name.now, view value.now)) }
{
    if !is_name(name) {
        return Ok(None);
    }
    let Some(map) = value.as_object() else {
        return Ok(None);
    };
    let Some(parameters) = parameters_in(alloc, map)? else {
        return Ok(None);
    };
    Ok(Some(LooseGrade {
        name: Text::from_text(alloc, name)?,
        parameters,
    }))
}

// The parameters of the members of an object, or `None` if a member is no parameter.
fn parameters_in(
    alloc: Global,
    map: &Map<String, Value>,
) -> Result<Option<LooseParameters>, NoMemory>
    ensures { IfOk result (λ parameters. parameters ≡ all_of parameter_of (members (members_view map.now.entries))) }
{
    let mut parameters = LooseParameters::new(alloc);
    for (name, value) in map.iter() {
        let Some(parameter) = parameter_of(alloc, name.as_str(), value)? else {
            return Ok(None);
        };
        parameters.push(parameter)?;
    }
    Ok(Some(parameters))
}

// The parameter of a member, or `None` if it is no parameter.
fn parameter_of(
    alloc: Global,
    name: &str,
    value: &Value,
) -> Result<Option<LooseParameter>, NoMemory>
    ensures { IfOk result (λ parameter. parameter ≡ parameter_of (name.now, view value.now)) }
{
    if !is_name(name) {
        return Ok(None);
    }
    let Some(list) = list_of(value) else {
        return Ok(None);
    };
    let Some(ends) = ends_by(list) else {
        return Ok(None);
    };
    Ok(Some(LooseParameter {
        name: Text::from_text(alloc, name)?,
        ends,
    }))
}
