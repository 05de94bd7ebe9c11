//! The pins that nets name, as pins of parts.

ghost use Rattle.std.specs.Prelude.{◌≡◌, ◌+◌, ◌<◌, ◌≤◌, All, IfOk, IfSome, Some, find, length, map, option_map, slice_get};
ghost use Rattle.std.specs.Str.{bytes_eq};
ghost use Rattle.itv_base.specs.Reading.{AgreesWith};
ghost use Rattle.sheet.specs.declared.pin.Pin.{Pin as PinSeen};
ghost use Rattle.compose.specs.Fault.{is_memory};
ghost use Rattle.compose.specs.Nets.{part_named, terminal_by, terminal_of, terminals_of};
ghost use Rattle.compose.specs.declared.terminal.Terminal.{Terminal as TerminalSeen};

use crate::fault::JoinFault;
use itv_base::{MAX_PARTS, Text};
use netlist::{Part, PinText};
use sheet::{MAX_MARKS, Pin, Sheet};
use std::alloc::Global;

/// A pin of a design: the number of its part, and its marks on the part's sheet. There are `count` marks, from number `first` on.
#[derive(Clone, Copy)]
pub struct Terminal {
    pub part: u32,
    pub first: u32,
    pub count: u32,
}

/// The pins of net n in order, or the fault of the first pin that is not there.
pub fn terminals_of(
    alloc: Global,
    parts: &[Part],
    sheets: &[&Sheet],
    n: u64,
    pins: &[PinText],
) -> Result<Vec<Terminal>, JoinFault>
    requires parts { length parts.now ≡ length sheets.now }
    requires few { length parts.now ≤ MAX_PARTS }
    ensures within { IfOk result (λ found. All (λ (t : TerminalSeen). t.first + t.count ≤ MAX_MARKS) found.items) }
    ensures found { AgreesWith is_memory (λ found. found.items) result
        (terminals_of parts.now (map (λ s. s.now) sheets.now) n pins.now) }
{
    let mut found = Vec::new(alloc);
    for (k, text) in pins.iter().enumerate() {
        let terminal = terminal_of(parts, sheets, n, k as u64, text)?;
        found.push(terminal)?;
    }
    Ok(found)
}

// Pin k of net n, found among the parts.
fn terminal_of(
    parts: &[Part],
    sheets: &[&Sheet],
    n: u64,
    k: u64,
    text: &PinText,
) -> Result<Terminal, JoinFault>
    requires parts { length parts.now ≡ length sheets.now }
    requires few { length parts.now ≤ MAX_PARTS }
    ensures within { IfOk result (λ t. t.first + t.count ≤ MAX_MARKS) }
    ensures found { AgreesWith is_memory (λ t. t) result
        (terminal_of parts.now (map (λ s. s.now) sheets.now) n k text.now) }
{
    let Some(part) = part_named(parts, &text.part) else {
        return Err(JoinFault::NoPart(n, k));
    };
    match terminal_named(sheet_at(sheets, part), part as u32, &text.lane) {
        Some(terminal) => Ok(terminal),
        None => Err(JoinFault::NoPin(n, k)),
    }
}

/// The number of the part with a name.
pub fn part_named(parts: &[Part], name: &Text) -> Option<usize>
    ensures within { IfSome result (λ part. part < length parts.now) }
    ensures found { result ≡ part_named parts.now name.now }
{
    parts.iter().position(|part| *name == part.name)
}

/// The sheet of a part that is there.
pub fn sheet_at<'a, 'b>(sheets: &'b [&'a Sheet], part: usize) -> &'b Sheet
    requires { part < length sheets.now }
    ensures { slice_get (map (λ s. s.now) sheets.now) part ≡ Some result.now }
{
    sheets[part]
}

// The pin of a part with the name of a lane.
fn terminal_named(sheet: &Sheet, part: u32, name: &Text) -> Option<Terminal>
    ensures within { IfSome result (λ t. t.first + t.count ≤ MAX_MARKS) }
    ensures found { result ≡ option_map (terminal_by part) (find (λ pin. bytes_eq name.now pin.name) sheet.now.pins) }
{
    for pin in pins_of(sheet) {
        if *name == pin.name {
            return Some(Terminal {
                part,
                first: pin.first,
                count: pin.count,
            });
        }
    }
    None
}

// The pins of a sheet. The marks of each pin are on the sheet.
fn pins_of(sheet: &Sheet) -> &[Pin]
    ensures pins { result.now ≡ sheet.now.pins }
    ensures within { All (λ (pin : PinSeen). pin.first + pin.count ≤ MAX_MARKS) result.now }
{
    let _marks = sheet.marks();
    sheet.pins().as_slice()
}
