//! Reading the pins of a net.

ghost use Rattle.std.specs.Prelude.{◌≡◌, IfOk, map, option_map, ok_or};
ghost use Rattle.serde_json.specs.View.{view};
ghost use Rattle.json_tree.specs.Words.{all_of};
ghost use Rattle.netlist.specs.Fault.{is_memory};
ghost use Rattle.netlist.specs.Netlist.{pin_at, pin_of, pins_of};
ghost use Rattle.itv_base.specs.Reading.{AgreesWith};
ghost use Rattle.netlist.specs.declared.fault.NetlistFault.TheVariants as faults;

use crate::fault::NetlistFault;
use crate::pin::{PinText, PinTexts};
use itv_base::{NoMemory, Text, is_name};
use json_tree::list_at;
use serde_json::Value;
use std::alloc::Global;

/// The pins of net n, at least one, or its fault where it has no list of pin texts.
pub fn read_pins(alloc: Global, n: u64, net: &Value) -> Result<PinTexts, NetlistFault>
    ensures { AgreesWith is_memory (λ pins. pins) result (ok_or (pins_of (view net.now)) (faults.Net n)) }
{
    let Some(list) = list_at(net, "pins") else {
        return Err(NetlistFault::Net(n));
    };
    match pins_in(alloc, list)? {
        Some(pins) if pins.len() > 0 => Ok(pins),
        _ => Err(NetlistFault::Net(n)),
    }
}

// The pins of the elements of a list, if each element is a pin.
fn pins_in(alloc: Global, list: &[Value]) -> Result<Option<PinTexts>, NoMemory>
    ensures { IfOk result (λ pins. pins ≡ all_of pin_at (map view list.now)) }
{
    let mut pins = PinTexts::new(alloc);
    for element in list {
        let Some(pin) = read_pin(alloc, element)? else {
            return Ok(None);
        };
        pins.push(pin)?;
    }
    Ok(Some(pins))
}

// The pin of an element, if the element is a text that names a pin.
fn read_pin(alloc: Global, element: &Value) -> Result<Option<PinText>, NoMemory>
    ensures { IfOk result (λ pin. pin ≡ pin_at (view element.now)) }
{
    let Some(text) = element.as_str() else {
        return Ok(None);
    };
    let Some((part, lane)) = cut_pin(text) else {
        return Ok(None);
    };
    Ok(Some(PinText {
        part: Text::from_text(alloc, part)?,
        lane: Text::from_text(alloc, lane)?,
    }))
}

// The name of a part, before the first full stop of a text, and the name of a lane, after it.
#[tactic(auto, unfolding(crate::specs::Netlist::pin_of))]
fn cut_pin(text: &str) -> Option<(&str, &str)>
    ensures { option_map (λ pin. record { part = pin.0.now; lane = pin.1.now }) result ≡ pin_of text.now }
{
    let (part, lane) = text.split_once('.')?;
    if is_name(part) && !lane.is_empty() {
        Some((part, lane))
    } else {
        None
    }
}
