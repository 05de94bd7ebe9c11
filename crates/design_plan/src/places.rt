//! Where the sheets of parts stand.

ghost use Rattle.std.specs.Prelude.{◌≡◌, All, IfOk, IsSome, slice_get};
ghost use Rattle.std.specs.Map.{values_of};
ghost use Rattle.netlist.specs.declared.part.Part.{Part as PartSeen};
ghost use Rattle.compose.specs.Sheets.{key_of};
ghost use Rattle.design_plan.specs.Plan.{sheet_among};
ghost use Rattle.design_plan.specs.Step.{ArePartPlaces};

use compose::{SheetKey, Sheets};
use itv_base::NoMemory;
use netlist::Part;
use std::alloc::Global;

/// The place of the sheet of each part among sheets that have it, part by part.
pub fn places_of(alloc: Global, parts: &[Part], sheets: &Sheets) -> Result<Vec<usize>, NoMemory>
    requires { All (λ (part : PartSeen). IsSome (sheet_among sheets.now.entries (key_of part))) parts.now }
    ensures { IfOk result (λ places. ArePartPlaces sheets.now.entries parts.now places.items) }
{
    let mut places = Vec::new(alloc);
    for part in parts {
        let key = SheetKey::of(alloc, part)?;
        let place = place_of(sheets, &key);
        places.push(place)?;
    }
    Ok(places)
}

// The place of the sheet of a key. The sheet is there.
fn place_of(sheets: &Sheets, key: &SheetKey) -> usize
    requires { IsSome (sheet_among sheets.now.entries key.now) }
    ensures { slice_get (values_of sheets.now.entries) result ≡ sheet_among sheets.now.entries key.now }
{
    match sheets.get_index_of(key) {
        Some(place) => place,
        None => unreachable!(),
    }
}
