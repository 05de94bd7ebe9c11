//! Reading the sheets of a netlist.

ghost use Rattle.std.specs.Prelude.{◌≡◌, ℕ, OnOk};
ghost use Rattle.std.specs.Option.{option_copied};
ghost use Rattle.std.specs.Str.{bytes_eq};
ghost use Rattle.serde_json.specs.View.{view};
ghost use Rattle.itv_base.specs.Reading.{AgreesWith};
ghost use Rattle.sheet.specs.Fault.{is_memory};
ghost use Rattle.sheet.specs.Sheet.{sheet_by};
ghost use Rattle.netlist.specs.Netlist.{sheet_names};
ghost use Rattle.design_reading.specs.Design.{grades_in, sheets_at, sheets_in, sheets_of_files, with_part, with_sheet};
ghost use Rattle.design_reading.specs.FileReading.{at, each};
ghost use Rattle.design_reading.specs.Step.{Opens, ReadsAs};
ghost use Rattle.design_reading.specs.Step.Lone.{plain_sheet_at};
ghost use Rattle.design_reading.specs.declared.refusal.Refusal.TheVariants as refusals;

use crate::file::open_tree;
use crate::refusal_place::RefusalPlace;
use crate::stop::{Stop, diagram_stop, grades_stop, sheet_stop};
use compose::{SheetKey, Sheets};
use itv_base::{NoMemory, Shelf, Text};
use netlist::{Netlist, Part};
use serde_json::Value;
use sheet::{Grades, Sheet, SheetFault, read_grades, read_sheet, read_sheet_at};
use std::alloc::Global;
use wavejson::{Diagram, read_diagram};

/// The sheets of the files that the parts of a netlist are drawn on. These are files 1, 2 and so on. Each file gives one sheet for each speed
/// grade, or none, that its parts name.
pub fn open_sheets<H: Shelf>(
    alloc: Global,
    netlist: &Netlist,
    shelf: &mut H,
) -> Result<Sheets, Stop>
    ensures { Opens (λ sheets. sheets.entries) (H.state shelf.old) (H.state shelf.new)
        (sheets_of_files netlist.now (sheet_names netlist.now.parts)) result }
{
    let mut sheets = Sheets::new(alloc);
    let names = netlist.sheet_names();
    for k in 0..names.len() {
        open_file(
            alloc,
            netlist,
            k + 1,
            names.get(k).as_text(),
            &mut sheets,
            shelf,
        )?;
    }
    Ok(sheets)
}

// Adds the sheets of the file with a number.
fn open_file<H: Shelf>(
    alloc: Global,
    netlist: &Netlist,
    number: u64,
    name: &str,
    sheets: &mut Sheets,
    shelf: &mut H,
) -> Result<(), Stop>
    ensures { Opens (λ _. sheets.new.entries) (H.state shelf.old) (H.state shelf.new)
        (sheets_in netlist.now number sheets.old.entries name.now) result }
{
    let tree = open_tree(alloc, RefusalPlace::File(number), name, shelf)?;
    read_sheets(alloc, netlist, number, name, &tree, sheets)
}

// Adds the sheets that the tree of the file with a number draws.
fn read_sheets(
    alloc: Global,
    netlist: &Netlist,
    number: u64,
    name: &str,
    tree: &Value,
    sheets: &mut Sheets,
) -> Result<(), Stop>
    ensures { ReadsAs (λ _. sheets.new.entries)
        (sheets_at netlist.now number sheets.old.entries name.now (view tree.now)) result }
{
    let place = RefusalPlace::File(number);
    let diagram = match read_diagram(alloc, tree) {
        Ok(diagram) => diagram,
        Err(fault) => return Err(diagram_stop(place, fault)),
    };
    let grades = grades_in(alloc, netlist.version(), place, tree)?;
    let parts = netlist.parts().as_slice();
    push_parts(alloc, place, name, &grades, &diagram, parts, sheets)
}

// The speed grades of a file. In version 1 there are none, and what stands under their key is ignored.
fn grades_in(
    alloc: Global,
    version: u32,
    place: RefusalPlace,
    tree: &Value,
) -> Result<Option<Grades>, Stop>
    ensures { ReadsAs (λ grades. grades) (grades_in version place (view tree.now)) result }
{
    if version != 2 {
        return Ok(None);
    }
    match read_grades(alloc, tree) {
        Ok(grades) => Ok(Some(grades)),
        Err(fault) => Err(grades_stop(place, fault)),
    }
}

// Adds the sheets of all parts of a file.
fn push_parts(
    alloc: Global,
    place: RefusalPlace,
    name: &str,
    grades: &Option<Grades>,
    diagram: &Diagram,
    parts: &[Part],
    sheets: &mut Sheets,
) -> Result<(), Stop>
    ensures { ReadsAs (λ _. sheets.new.entries)
        (each (with_part place name.now grades.now diagram.now) 0 sheets.old.entries parts.now) result }
{
    for part in parts {
        push_part(alloc, place, name, grades, diagram, part, sheets)?;
    }
    Ok(())
}

// Adds the sheet of a part, if the part is drawn on this file and no part of the file before it has its speed grade.
fn push_part(
    alloc: Global,
    place: RefusalPlace,
    name: &str,
    grades: &Option<Grades>,
    diagram: &Diagram,
    part: &Part,
    sheets: &mut Sheets,
) -> Result<(), Stop>
    ensures { (n : ℕ) → ReadsAs (λ _. sheets.new.entries)
        (with_part place name.now grades.now diagram.now n sheets.old.entries part.now) result }
{
    if !is_on(name, part) {
        return Ok(());
    }
    let key = SheetKey::of(alloc, part)?;
    if sheets.contains_key(&key) {
        return Ok(());
    }
    let sheet = read_sheet_by(alloc, place, grades, &part.grade, diagram)?;
    push_sheet(sheets, key, sheet)?;
    Ok(())
}

// Whether a part is drawn on the sheet of a name.
fn is_on(name: &str, part: &Part) -> bool
    ensures { result ≡ bytes_eq name.now part.now.sheet }
{
    name == part.sheet.as_text()
}

/// Adds a sheet under a key.
pub fn push_sheet(sheets: &mut Sheets, key: SheetKey, sheet: Sheet) -> Result<(), NoMemory>
    ensures entries { OnOk result (sheets.new.entries ≡ with_sheet sheets.old.entries key sheet) }
{
    sheets.insert(key, sheet)?;
    Ok(())
}

// The sheet of a drawing, with a fault as a refusal at a place.
fn read_sheet_by(
    alloc: Global,
    place: RefusalPlace,
    grades: &Option<Grades>,
    grade: &Option<Text>,
    diagram: &Diagram,
) -> Result<Sheet, Stop>
    ensures { ReadsAs (λ sheet. sheet) (at place refusals.Sheet (sheet_by grades.now grade.now diagram.now)) result }
{
    match sheet_by(alloc, grades, grade, diagram) {
        Ok(sheet) => Ok(sheet),
        Err(fault) => Err(sheet_stop(place, fault)),
    }
}

// The sheet of a drawing. Without grades it is read as in version 1. With grades it is read as in version 2, at one of them or at none.
fn sheet_by(
    alloc: Global,
    grades: &Option<Grades>,
    grade: &Option<Text>,
    diagram: &Diagram,
) -> Result<Sheet, SheetFault>
    ensures { AgreesWith is_memory (λ sheet. sheet) result (sheet_by grades.now grade.now diagram.now) }
{
    match grades {
        None => read_sheet(alloc, diagram),
        Some(grades) => read_sheet_at(alloc, diagram, grades, text_of(grade)),
    }
}

// The text itself, if there is one.
fn text_of(text: &Option<Text>) -> Option<&str>
    ensures { option_copied result ≡ text.now }
{
    match text {
        Some(text) => Some(text.as_text()),
        None => None,
    }
}

/// The sheet that a tree draws in version 1.
pub fn read_plain_sheet(alloc: Global, place: RefusalPlace, tree: &Value) -> Result<Sheet, Stop>
    ensures { ReadsAs (λ sheet. sheet) (plain_sheet_at place (view tree.now)) result }
{
    let diagram = match read_diagram(alloc, tree) {
        Ok(diagram) => diagram,
        Err(fault) => return Err(diagram_stop(place, fault)),
    };
    let read = read_sheet(alloc, &diagram);
    drop(diagram);
    match read {
        Ok(sheet) => Ok(sheet),
        Err(fault) => Err(sheet_stop(place, fault)),
    }
}
