//! Reading the nets of a netlist.

ghost use Rattle.std.specs.Prelude.{◌≡◌, [], map, option_map};
ghost use Rattle.serde_json.specs.Find.{get};
ghost use Rattle.serde_json.specs.View.{view};
ghost use Rattle.json_tree.specs.Pairs.{ends_view};
ghost use Rattle.netlist.specs.Fault.{is_memory};
ghost use Rattle.netlist.specs.Netlist.{delay_of, net_of, range_of, with_net};
ghost use Rattle.itv_base.specs.Reading.{AgreesWith, walk};

use crate::fault::NetlistFault;
use crate::pin_net::{Nets, PinNet};
use crate::pins::read_pins;
use itv_base::{Range, RangeFault};
use json_tree::{EndPair, ends_by, list_of, owned_text, text_at};
use serde_json::Value;
use std::alloc::Global;

/// The nets of the elements of a list, or the first fault.
pub fn read_nets(alloc: Global, list: &[Value]) -> Result<Nets, NetlistFault>
    ensures { AgreesWith is_memory (λ nets. nets) result (walk with_net 0 [] (map view list.now)) }
{
    let mut nets = Nets::new(alloc);
    for (n, element) in list.iter().enumerate() {
        push_net(alloc, &mut nets, n as u64, element)?;
    }
    Ok(nets)
}

// Puts net n at the end.
fn push_net(alloc: Global, nets: &mut Nets, n: u64, element: &Value) -> Result<(), NetlistFault>
    ensures { AgreesWith is_memory (λ _. nets.new) result (with_net n nets.old (view element.now)) }
{
    nets.push(read_net(alloc, n, element)?)?;
    Ok(())
}

// The name, the pins and the delay of net n.
fn read_net(alloc: Global, n: u64, element: &Value) -> Result<PinNet, NetlistFault>
    ensures { AgreesWith is_memory (λ net. net) result (net_of n (view element.now)) }
{
    let pins = read_pins(alloc, n, element)?;
    let Some(ends) = delay_of(element.get("delay")) else {
        return Err(NetlistFault::Net(n));
    };
    let delay = range_of(n, ends)?;
    let name = owned_text(alloc, text_at(element, "name"))?;
    Ok(PinNet { name, pins, delay })
}

// The two ends of a delay. A missing delay is 0.
fn delay_of(delay: Option<&Value>) -> Option<EndPair>
    ensures { option_map ends_view result
        ≡ delay_of (option_map (λ d. view d.now) delay.entry) }
{
    let Some(delay) = delay else {
        return Some(EndPair {
            low: Some(0),
            high: Some(0),
        });
    };
    match list_of(delay) {
        Some(list) => ends_by(list),
        None => None,
    }
}

// The range of the ends of net n.
fn range_of(n: u64, ends: EndPair) -> Result<Range, NetlistFault>
    ensures { AgreesWith is_memory (λ range. range) result (range_of n (ends_view ends)) }
{
    match Range::new(ends.low, ends.high) {
        Ok(range) => Ok(range),
        Err(RangeFault::TooWide) => Err(NetlistFault::Delay(n, RangeFault::TooWide)),
        Err(RangeFault::EmptyRange) => Err(NetlistFault::Delay(n, RangeFault::EmptyRange)),
    }
}
