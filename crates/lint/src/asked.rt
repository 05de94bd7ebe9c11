//! Whether a design asks anything.

ghost use Rattle.std.specs.Prelude.{◌≡◌, ◌++◌, ◌==◌, OnOk, length, slice_get};
ghost use Rattle.std.specs.Option.{option_copied};
ghost use Rattle.compose.specs.Design.{IsDesign};
ghost use Rattle.unroll.specs.Cycle.{rows_of};
ghost use Rattle.lint.specs.Rules.{row_warnings};

use crate::about::About;
use crate::push::push_where;
use crate::warning::Warning;
use crate::warning_word::WarningWord;
use compose::Design;
use itv_base::NoMemory;
use sheet::Sheet;

/// Puts the warning of a design without rows at the end.
pub fn push_asked(warnings: &mut Vec<Warning>, design: &Design<'_>) -> Result<(), NoMemory>
    ensures pushed { OnOk result (warnings.new.items ≡ warnings.old.items ++ row_warnings design.now) }
{
    let word = WarningWord::Rows;
    let about = About::Nothing;
    push_where(has_no_rows(design), Warning { word, about }, warnings)
}

fn has_no_rows(design: &Design<'_>) -> bool
    ensures { result ≡ (length (rows_of design.now) == 0) }
{
    for part in 0..part_count(design) {
        if !design.sheet_of(part).rows().is_empty() {
            return false;
        }
    }
    design.wire_rows().is_empty()
}

/// How many parts there are.
pub fn part_count(design: &Design<'_>) -> u32
    ensures count { result ≡ length design.now.sheets }
    ensures design { IsDesign design.now }
{
    // There are few parts, and each has a sheet.
    let _cycles = design.cycles();
    design.parts().len() as u32
}

/// The sheet of a part, if there is such a part.
pub fn sheet_at<'a>(design: &'a Design<'_>, part: u32) -> Option<&'a Sheet>
    ensures sheet { option_copied result ≡ slice_get design.now.sheets part }
{
    if part < part_count(design) {
        Some(design.sheet_of(part))
    } else {
        None
    }
}
