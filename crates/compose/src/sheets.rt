//! The sheets of the parts of a netlist.

ghost use Rattle.std.specs.Prelude.{◌≡◌, All, IfOk, IsSome, Some, length, map};
ghost use Rattle.netlist.specs.declared.part.Part.{Part as PartSeen};
ghost use Rattle.sheet.specs.Whole.{IsWhole};
ghost use Rattle.compose.specs.Sheets.{key_of, sheet_named, sheets_of};

use crate::sheet_key::SheetKey;
use indexmap::IndexMap;
use itv_base::NoMemory;
use netlist::Part;
use sheet::Sheet;
use std::alloc::Global;

/// Sheets by their names and speed grades, in the order in which they were put in.
pub type Sheets = IndexMap<SheetKey, Sheet>;

/// The sheets that parts are drawn on, part by part.
pub(crate) fn sheets_of<'a>(
    alloc: Global,
    parts: &[Part],
    sheets: &'a Sheets,
) -> Result<Vec<&'a Sheet>, NoMemory>
    requires { All (λ (part : PartSeen). IsSome (sheet_named sheets.now (key_of part))) parts.now }
    ensures found { IfOk result (λ found. map (λ s. s.now) found.items ≡ sheets_of sheets.now parts.now) }
    ensures count { IfOk result (λ found. length found.items ≡ length parts.now) }
    ensures whole { IfOk result (λ found. All IsWhole (map (λ s. s.now) found.items)) }
{
    let mut found = Vec::new(alloc);
    for part in parts {
        let key = SheetKey::of(alloc, part)?;
        found.push(sheet_named(sheets, &key))?;
    }
    Ok(found)
}

// The sheet of a key that is there.
fn sheet_named<'a>(sheets: &'a Sheets, key: &SheetKey) -> &'a Sheet
    requires { IsSome (sheet_named sheets.now key.now) }
    ensures found { sheet_named sheets.now key.now ≡ Some result.now }
    ensures whole { IsWhole result.now }
{
    match sheets.get(key) {
        Some(sheet) => {
            let _marks = sheet.marks();
            sheet
        }
        None => unreachable!(),
    }
}
