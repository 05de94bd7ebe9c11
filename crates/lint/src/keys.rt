//! Keys of sheets that nearly are keys which are read, and keys of the netlist that are not known.

ghost use Rattle.std.specs.Prelude.{◌≡◌, ◌++◌, OnOk};
ghost use Rattle.lint.specs.Lists.{each_from};
ghost use Rattle.lint.specs.Texts.{key_warnings, netlist_key, sheet_key, sheet_key_warnings};

use crate::about::About;
use crate::asked::part_count;
use crate::warning::Warning;
use crate::warning_word::WarningWord;
use compose::Design;
use design_plan::Plan;
use itv_base::{NoMemory, Texts};
use json_tree::StrayKeys;

/// Puts the warnings of keys at the end: of near keys of the sheets, and then of stray keys of the netlist.
pub fn push_keys(
    warnings: &mut Vec<Warning>,
    plan: &Plan,
    design: &Design<'_>,
) -> Result<(), NoMemory>
    ensures pushed { OnOk result (warnings.new.items ≡ warnings.old.items ++ key_warnings plan.now design.now) }
{
    push_sheets(warnings, design)?;
    push_netlist(warnings, plan.netlist().stray())
}

// Puts the warnings of the sheets at the end.
fn push_sheets(warnings: &mut Vec<Warning>, design: &Design<'_>) -> Result<(), NoMemory>
    ensures pushed { OnOk result (warnings.new.items ≡ warnings.old.items ++ each_from sheet_key_warnings 0 design.now.sheets) }
{
    for part in 0..part_count(design) {
        push_sheet(warnings, part, design.sheet_of(part).near())?;
    }
    Ok(())
}

// Puts the warnings of the keys of the sheet of a part at the end.
fn push_sheet(warnings: &mut Vec<Warning>, part: u32, near: &Texts) -> Result<(), NoMemory>
    ensures pushed { OnOk result (warnings.new.items ≡ warnings.old.items ++ each_from (sheet_key part) 0 near.now) }
{
    for key in 0..near.len() {
        let word = WarningWord::Key;
        let about = About::SheetKey { part, key };
        warnings.push(Warning { word, about })?;
    }
    Ok(())
}

// Puts the warnings of the keys of the netlist at the end.
fn push_netlist(warnings: &mut Vec<Warning>, stray: &StrayKeys) -> Result<(), NoMemory>
    ensures pushed { OnOk result (warnings.new.items ≡ warnings.old.items ++ each_from netlist_key 0 stray.now) }
{
    for key in 0..stray.len() {
        let word = WarningWord::Key;
        let about = About::NetlistKey(key);
        warnings.push(Warning { word, about })?;
    }
    Ok(())
}
