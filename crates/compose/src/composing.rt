//! Composing a design from a netlist and its sheets.

ghost use Rattle.std.specs.Prelude.{◌≡◌, All, IfOk, IsSome, map};
ghost use Rattle.itv_base.specs.Reading.{AgreesWith};
ghost use Rattle.netlist.specs.declared.part.Part.{Part as PartSeen};
ghost use Rattle.compose.specs.Compose.{composed};
ghost use Rattle.compose.specs.Fault.{is_memory};
ghost use Rattle.compose.specs.Sheets.{key_of, sheet_named};

use crate::design::Design;
use crate::fault::JoinFault;
use crate::nets::join_nets;
use crate::sheets::{Sheets, sheets_of};
use crate::wires::read_wires;
use itv_base::{NoMemory, Texts};
use netlist::{Netlist, Part};
use std::alloc::Global;

/// The design of a netlist and its sheets, or the first fault in the order of [`JoinFault`]. `sheets` has to have the sheet of each part at its speed
/// grade. The design borrows the sheets.
///
/// The first pin of a net drives each other pin: mark k of the driver is joined to mark k of the other pin, with the net's delay. Wires are grouped
/// into rules as the edges of a sheet are: latest causes of one target with one tag form one rule, and so do earliest causes.
///
/// `NoMemory` may come in place of a design or a fault. After any fault there is no design.
pub fn compose<'a>(
    alloc: Global,
    netlist: &Netlist,
    sheets: &'a Sheets,
) -> Result<Design<'a>, JoinFault>
    requires sheets { All (λ (part : PartSeen). IsSome (sheet_named sheets.now (key_of part))) netlist.now.parts }
    ensures answer { AgreesWith is_memory (λ design. design) result (composed netlist.now sheets.now) }
{
    let cycles = netlist.cycles();
    let parts = netlist.parts().as_slice();
    let drawn = sheets_of(alloc, parts, sheets)?;
    let joins = join_nets(alloc, parts, &drawn, netlist.nets().as_slice())?;
    let wires = read_wires(alloc, parts, &drawn, netlist.wires().as_slice())?;
    let parts = names_of(alloc, parts)?;
    Ok(Design {
        cycles,
        parts,
        sheets: drawn,
        joins,
        rules: wires.rules,
        rows: wires.rows,
    })
}

// The names of parts.
fn names_of(alloc: Global, parts: &[Part]) -> Result<Texts, NoMemory>
    ensures { IfOk result (λ names. names ≡ map (λ (part : PartSeen). part.name) parts.now) }
{
    let mut names = Texts::new(alloc)?;
    for part in parts {
        names.push(alloc, part.name.as_text())?;
    }
    Ok(names)
}
