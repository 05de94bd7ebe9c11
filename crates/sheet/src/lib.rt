//! One sheet of a part: the marks on its lanes, its pins, the rules between its marks, the separations that it asks for, the texts of
//! its edges, and its near keys: the keys that are ignored and nearly are keys which are read.
//! A mark is named by its number on the sheet: the marks are numbered lane by lane and then by place.
//! The one contract: `read_sheet` gives the sheet of the drawing, or its first fault if and only if it has one.
#![tactic(auto)]

mod edges;
mod fault;
mod groups;
mod labels;
mod lanes;
mod link;
mod mark;
mod order;
mod pin;
mod pins;
mod read;
mod row;
mod rows;
mod rule;
mod sheet;

pub use fault::SheetFault;
pub use grades::{Grade, Grades, GradesFault, Parameter, Parameters, read_grades};
pub use groups::{Group, GroupFault, Places, push_link};
pub use link::Link;
pub use mark::{MAX_MARKS, Mark, Marks};
pub use pin::{Pin, Pins};
pub use read::{read_sheet, read_sheet_at};
pub use row::{SheetRow, SheetRows};
pub use rows::push_row;
pub use rule::{Rule, RuleCause, RuleCauses, Rules};
pub use sheet::Sheet;
