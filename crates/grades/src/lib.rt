//! The speed grades of a sheet. Each grade gives its parameters their ranges, and a label of version 2 may name a parameter. Grades are read from a
//! tree of JSON. They are numbered from 0 in the byte order of their names, and so are the parameters of a grade. The contract of the crate:
//! `read_grades` returns the first fault of a tree's grades if and only if there is one, except for lack of memory. Otherwise it returns the grades.
#![tactic(auto)]

mod fault;
mod grade;
mod loose;
mod read;
mod table;

pub use fault::GradesFault;
pub use grade::{Grade, Parameter, Parameters};
pub use read::read_grades;
pub use table::Grades;
