//! Marks past the end of the wave of their lane.

ghost use Rattle.std.specs.Prelude.{◌<◌, ◌^◌, length};

use crate::about::About;
use crate::asked::part_count;
use crate::warning::Warning;
use crate::warning_word::WarningWord;
use compose::{Design, DesignMark};
use itv_base::NoMemory;
use sheet::{Mark, Marks};
use wave_string::MarkKind;

/// Puts a warning at the end for the first mark of each lane at which its wave has ended, if the wave draws something at an earlier mark of the lane. A lane
/// without a wave has no such mark. The answer is `NoMemory` if memory runs out.
pub fn push_waves(warnings: &mut Vec<Warning>, design: &Design<'_>) -> Result<(), NoMemory> {
    for part in 0..part_count(design) {
        push_marks(warnings, part, design.sheet_of(part).marks())?;
    }
    Ok(())
}

// Puts the warnings of the marks of a part at the end.
fn push_marks(warnings: &mut Vec<Warning>, part: u32, marks: &Marks) -> Result<(), NoMemory>
    requires few { length marks.now < 2 ^ 32 }
{
    for k in 1..marks.len() as u32 {
        let earlier = marks.get(u64::from(k) - 1);
        if ends_between(earlier, marks.get(u64::from(k))) {
            let word = WarningWord::Wave;
            let about = About::Mark(DesignMark { part, mark: k });
            warnings.push(Warning { word, about })?;
        }
    }
    Ok(())
}

// Whether two marks are on one lane, whose wave draws something at the first and has ended at the second.
fn ends_between(earlier: &Mark, mark: &Mark) -> bool {
    earlier.lane == mark.lane && !is_bare(earlier.kind) && is_bare(mark.kind)
}

fn is_bare(kind: MarkKind) -> bool {
    match kind {
        MarkKind::Bare => true,
        MarkKind::Rise | MarkKind::Fall | MarkKind::Change | MarkKind::Steady => false,
    }
}
