//! The pins of a drawing.

ghost use Rattle.std.specs.Prelude.{◌≡◌, option_to_list};
ghost use Rattle.std.specs.List.{list_any};
ghost use Rattle.std.specs.Str.{bytes_eq};
ghost use Rattle.sheet.specs.Fault.{is_memory};
ghost use Rattle.itv_base.specs.Reading.{AgreesWith};
ghost use Rattle.sheet.specs.Lanes.{pin_of};
ghost use Rattle.sheet.specs.Sheet.{read_pins};
ghost use Rattle.sheet.specs.Step.{with_pins, spans_of, numbered_by};

use crate::fault::SheetFault;
use crate::lanes::LaneSpan;
use crate::pin::{Pin, Pins};
use itv_base::Text;
use std::alloc::Global;
use wavejson::{LaneText, Lanes};

/// The pins of the lanes, whose spans of marks are given; or the first lane that has the name of an earlier pin.
pub fn read_pins(alloc: Global, lanes: &Lanes, spans: &[LaneSpan]) -> Result<Pins, SheetFault>
    requires { spans.now ≡ spans_of lanes.now }
    ensures { AgreesWith is_memory (λ pins. pins) result (read_pins lanes.now) }
{
    let mut pins = Pins::new(alloc);
    for (k, span) in spans.iter().enumerate() {
        let number = k as u64;
        push_pin(alloc, &mut pins, number, lanes.get(number), *span)?;
    }
    Ok(pins)
}

// Puts a lane at the end if it is a pin, or gives its fault if an earlier pin has its name.
fn push_pin(
    alloc: Global,
    pins: &mut Pins,
    number: u64,
    lane: &LaneText,
    span: LaneSpan,
) -> Result<(), SheetFault>
    ensures { AgreesWith is_memory (λ _. pins.new) result
        (with_pins pins.old (option_to_list (pin_of (numbered_by number lane.now span)))) }
{
    let Some(name) = &lane.name else {
        return Ok(());
    };
    if span.count == 0 {
        return Ok(());
    }
    if has_pin(pins.as_slice(), name) {
        return Err(SheetFault::DoublePin(number));
    }
    pins.push(Pin {
        lane: number,
        name: Text::from_text(alloc, name.as_text())?,
        first: span.first,
        count: span.count,
    })?;
    Ok(())
}

fn has_pin(pins: &[Pin], name: &Text) -> bool
    ensures { result ≡ list_any (λ pin. bytes_eq name.now pin.name) pins.now }
{
    pins.iter().any(|pin| *name == pin.name)
}
