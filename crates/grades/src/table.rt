//! The grades of a sheet.

ghost use Rattle.std.specs.Prelude.{◌≡◌, [], is_some, option_map, option_and_then};
ghost use Rattle.std.specs.List.{find};
ghost use Rattle.std.specs.Str.{bytes_eq};
ghost use Rattle.grades.specs.declared.grade.Parameter.{Parameter as ParameterSeen};
ghost use Rattle.grades.specs.Grades.{AreRanges, grade_called, range_in};

use crate::grade::{Grade, Parameter};
use itv_base::{Listing, Range};
use std::alloc::Global;
use std::marker::Model;

/// The grades of a sheet in the byte order of their names. Contracts see a list of grades.
#[derive(Drop)]
pub struct Grades {
    pub(crate) grades: Listing<Grade>,
}

impl Model for Grades {
    ghost use Rattle.std.specs.Prelude.{List};
    ghost use Rattle.grades.specs.declared.grade.Grade.{Grade};
    ghost use Rattle.grades.specs.Grades.{AreRanges};

    ghost Value = { List Grade };

    ghost view = { λ g. g.grades };

    ghost invariant = { λ g. AreRanges g.grades };
}

impl Grades {
    /// No grades.
    pub fn none(alloc: Global) -> Grades
        ensures none { result ≡ [] }
    {
        Grades {
            grades: Listing::new(alloc),
        }
    }

    /// The grade with a name, if there is one.
    pub fn grade(&self, name: &str) -> Option<&Grade>
        ensures grade { option_map (λ g. g.now) result ≡ grade_called self.now name.now }
        ensures ranges { AreRanges self.now }
    {
        grade_in(self.grades.as_slice(), name)
    }

    /// The range, in picoseconds, that a grade gives for the name of a parameter. The answer is `None` if there is no such grade, or if it has
    /// no such parameter.
    pub fn range_of(&self, grade: &str, name: &str) -> Option<Range>
        ensures range { result ≡ option_and_then (λ g. range_in g name.now) (grade_called self.now grade.now) }
    {
        match self.grade(grade) {
            Some(grade) => grade.range_of(name),
            None => None,
        }
    }

    /// Whether there is a grade with a name.
    pub fn has(&self, grade: &str) -> bool
        ensures has { result ≡ is_some (grade_called self.now grade.now) }
    {
        self.grade(grade).is_some()
    }
}

impl Grade {
    /// The range, in picoseconds, that the grade gives for the name of a parameter, if it has this parameter.
    pub fn range_of(&self, name: &str) -> Option<Range>
        ensures range { result ≡ range_in self.now name.now }
    {
        match parameter_in(self.parameters.as_slice(), name) {
            Some(parameter) => Some(parameter.range),
            None => None,
        }
    }
}

// The first grade with a name.
fn grade_in<'a>(grades: &'a [Grade], name: &str) -> Option<&'a Grade>
    ensures { option_map (λ g. g.now) result ≡ grade_called grades.now name.now }
{
    for grade in grades {
        if name == grade.name.as_text() {
            return Some(grade);
        }
    }
    None
}

// The first parameter with a name.
fn parameter_in<'a>(parameters: &'a [Parameter], name: &str) -> Option<&'a Parameter>
    ensures { option_map (λ p. p.now) result
        ≡ find (λ (p : ParameterSeen). bytes_eq name.now p.name) parameters.now }
{
    for parameter in parameters {
        if name == parameter.name.as_text() {
            return Some(parameter);
        }
    }
    None
}
