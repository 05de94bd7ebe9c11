//! Marks that follow two drivers.

ghost use Rattle.std.specs.Prelude.{◌≡◌, ◌++◌, [], OnOk};
ghost use Rattle.std.specs.List.{flat_map};
ghost use Rattle.std.specs.Option.{option_copied};
ghost use Rattle.lint.specs.Driven.{driver_warnings};
ghost use Rattle.lint.specs.Leads.{join_leads};
ghost use Rattle.lint.specs.Lists.{each_behind};
ghost use Rattle.lint.specs.Step.{AreFirstTwo, drivers_at, lead_drivers};

use crate::about::About;
use crate::first_two::{FirstTwo, first_met, note_lead};
use crate::lead::Lead;
use crate::warning::Warning;
use crate::warning_word::WarningWord;
use compose::Design;
use itv_base::NoMemory;
use std::alloc::Global;

/// Puts the warnings of marks that follow two drivers at the end. The joins are those of the design.
pub fn push_drivers(
    alloc: Global,
    warnings: &mut Vec<Warning>,
    joins: &[Lead],
    design: &Design<'_>,
) -> Result<(), NoMemory>
    requires joins { joins.now ≡ flat_map join_leads design.now.joins }
    ensures pushed { OnOk result (warnings.new.items ≡ warnings.old.items ++ driver_warnings design.now) }
{
    let mut tables = FirstTwo::new(alloc);
    let pushed = push_all(warnings, &mut tables, joins);
    drop(tables);
    pushed
}

// Puts the warnings of some joins at the end, and notes the joins in tables of no leads.
fn push_all(
    warnings: &mut Vec<Warning>,
    tables: &mut FirstTwo,
    joins: &[Lead],
) -> Result<(), NoMemory>
    requires none { AreFirstTwo tables.old [] }
    ensures pushed { OnOk result (warnings.new.items ≡ warnings.old.items ++ each_behind lead_drivers [] joins.now) }
{
    for join in joins {
        push_mark(warnings, join, first_met(tables, join))?;
        note_lead(tables, join)?;
    }
    Ok(())
}

// Puts the warning of the mark of a join at the end, with an earlier join from another mark. Without such a join there is none.
fn push_mark(
    warnings: &mut Vec<Warning>,
    join: &Lead,
    earlier: Option<&Lead>,
) -> Result<(), NoMemory>
    ensures pushed { OnOk result (warnings.new.items ≡ warnings.old.items ++ drivers_at join.now (option_copied earlier.entry)) }
{
    if let Some(earlier) = earlier {
        let mark = join.to;
        let first = earlier.origin;
        let other = join.origin;
        let word = WarningWord::Drivers;
        let about = About::Drivers { mark, first, other };
        warnings.push(Warning { word, about })?;
    }
    Ok(())
}
