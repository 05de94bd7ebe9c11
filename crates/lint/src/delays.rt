//! Nets whose delay may have been forgotten.

use crate::about::About;
use crate::clock::first_periods;
use crate::firsts::{FirstLeads, has_first};
use crate::lead::Lead;
use crate::warning::Warning;
use crate::warning_word::WarningWord;
use compose::Design;
use design_plan::Plan;
use itv_base::{NoMemory, Range};
use netlist::{Nets, PinNet};
use origin::Origin;
use std::alloc::Global;

/// Puts a warning at the end for each net without a delay, if most nets of the netlist have one. A net that joins marks of clocks alone may have its delay
/// in a skew, so it has no warning. The leads are those of the design. The answer is `NoMemory` if memory runs out.
pub fn push_delays(
    alloc: Global,
    warnings: &mut Vec<Warning>,
    leads: &[Lead],
    plan: &Plan,
    design: &Design<'_>,
) -> Result<(), NoMemory> {
    let nets = plan.netlist().nets();
    if !most_are_delayed(nets) {
        return Ok(());
    }
    let periods = first_periods(alloc, leads)?;
    let carries = carried_by(alloc, nets.len(), &periods, leads);
    drop(periods);
    let carries = carries?;
    for n in 0..nets.len() {
        if carries.get(n as usize) == Some(&true) && !is_delayed(nets.get(n)) {
            let word = WarningWord::Delay;
            let about = About::Net(n);
            warnings.push(Warning { word, about })?;
        }
    }
    Ok(())
}

// Whether more than half of some nets have a delay.
fn most_are_delayed(nets: &Nets) -> bool {
    let delayed = nets.as_slice().iter().filter(|net| is_delayed(net)).count();
    u128::from(nets.len()) < 2 * delayed as u128
}

// Whether the delay of a net is other than 0.
fn is_delayed(net: &PinNet) -> bool {
    !is_zero(net.delay())
}

fn is_zero(delay: Range) -> bool {
    delay.low() == Some(0) && delay.high() == Some(0)
}

// Which of so many nets join a mark that is no clock: neither the mark that drives nor the mark that is driven has a period of its own.
fn carried_by(
    alloc: Global,
    nets: u64,
    periods: &FirstLeads,
    leads: &[Lead],
) -> Result<Vec<bool>, NoMemory> {
    let mut carries = Vec::new(alloc);
    for _ in 0..nets {
        carries.push(false)?;
    }
    for lead in leads {
        if !has_first(periods, lead.from) && !has_first(periods, lead.to) {
            note_net(&mut carries, lead.origin);
        }
    }
    Ok(carries)
}

// Notes the net of a pin.
fn note_net(carries: &mut Vec<bool>, origin: Origin) {
    if let Origin::Pin { net, .. } = origin {
        if let Some(carried) = carries.get_mut(net as usize) {
            *carried = true;
        }
    }
}
