//! Keys of sheets.

ghost use Rattle.std.specs.Prelude.{◌≡◌, option_map, IfOk};
ghost use Rattle.compose.specs.Sheets.{key_of};

use itv_base::{NoMemory, Text};
use netlist::Part;
use std::alloc::Global;

/// The key of a part's sheet: the name of the sheet, and the speed grade of the part, if it has one.
#[derive(PartialEq, Eq, Hash, Drop)]
pub struct SheetKey {
    pub sheet: Text,
    pub grade: Option<Text>,
}

impl SheetKey {
    /// The key of the sheet of a part.
    pub fn of(alloc: Global, part: &Part) -> Result<SheetKey, NoMemory>
        ensures key { IfOk result (λ key. key ≡ key_of part.now) }
    {
        Ok(SheetKey {
            sheet: Text::from_text(alloc, part.sheet.as_text())?,
            grade: copy_of(alloc, &part.grade)?,
        })
    }
}

// A copy of a text, if there is one.
fn copy_of(alloc: Global, text: &Option<Text>) -> Result<Option<Text>, NoMemory>
    ensures { IfOk result (λ copy. copy ≡ text.now) }
{
    match text {
        Some(text) => Ok(Some(Text::from_text(alloc, text.as_text())?)),
        None => Ok(None),
    }
}
