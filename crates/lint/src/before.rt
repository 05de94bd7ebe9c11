//! Requirements at a part that begin before the net into the part.

use crate::home::Home;
use crate::warning::{DrawnPlace, Warning};
use crate::warning_word::WarningWord;
use compose::{Design, DesignMark};
use itv_base::{NoMemory, Range, RowKind};
use origin::Origin;
use sheet::SheetRow;
use std::alloc::Global;
use std::collections::HashMap;

// For each mark and each part that a net carries it to, the pin of this net. A mark is given by the numbers of its part and of itself.
type Carried = HashMap<(u32, u32, u32), Origin>;

/// Puts a warning at the end for each requirement of the netlist from a mark of one part to a mark of another, if a net with a delay carries one of the two
/// marks to the part of the other: the requirement leaves this delay out. The answer is `NoMemory` if memory runs out.
pub fn push_before(
    alloc: Global,
    warnings: &mut Vec<Warning>,
    design: &Design<'_>,
) -> Result<(), NoMemory> {
    if design.wire_rows().is_empty() {
        return Ok(());
    }
    let carried = carried_in(alloc, design)?;
    let pushed = push_rows(warnings, &carried, design);
    drop(carried);
    pushed
}

// Puts the warnings of the rows of the netlist at the end.
fn push_rows(
    warnings: &mut Vec<Warning>,
    carried: &Carried,
    design: &Design<'_>,
) -> Result<(), NoMemory> {
    for row in design.wire_rows().as_slice() {
        if let Some(pin) = left_out(carried, row, design) {
            let place = DrawnPlace {
                part: 0,
                origin: row.origin,
            };
            let net = DrawnPlace {
                part: 0,
                origin: pin,
            };
            warnings.push(Warning::of_two(WarningWord::Before, place, net))?;
        }
    }
    Ok(())
}

// The pin whose net a requirement leaves out, if there is one.
fn left_out(carried: &Carried, row: &SheetRow, design: &Design<'_>) -> Option<Origin> {
    match row.kind {
        RowKind::Ask => None,
        RowKind::Req(_) => {
            let from = Home::Netlist.mark(row.from, design);
            let to = Home::Netlist.mark(row.to, design);
            match carried_to(carried, from, to.part) {
                Some(pin) => Some(pin),
                None => carried_to(carried, to, from.part),
            }
        }
    }
}

// The pin by which a net carries a mark to another part, if one does.
fn carried_to(carried: &Carried, mark: DesignMark, part: u32) -> Option<Origin> {
    if mark.part == part {
        return None;
    }
    carried.get(&(mark.part, mark.mark, part)).copied()
}

// Where the nets with a delay carry marks.
fn carried_in(alloc: Global, design: &Design<'_>) -> Result<Carried, NoMemory> {
    let mut carried = Carried::new(alloc);
    for pin in design.joins().pins() {
        if is_delayed(pin.delay) {
            for k in 0..pin.marks {
                let key = (
                    pin.driver.part,
                    pin.driver.mark.saturating_add(k),
                    pin.driven.part,
                );
                carried.insert(key, pin.origin)?;
            }
        }
    }
    Ok(carried)
}

fn is_delayed(delay: Range) -> bool {
    delay.low() != Some(0) || delay.high() != Some(0)
}
