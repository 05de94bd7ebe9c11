//! Constraints as they are drawn, with other causes.

ghost use Rattle.std.specs.Prelude.{◌≡◌, ◌<◌, IsSomeAnd, OnOk, length, slice_get};
ghost use Rattle.itv_base.specs.declared.limits.TheConstants.{MAX_CONSTRAINTS};
ghost use Rattle.event_graph.specs.Network.{with_constraint};
ghost use Rattle.moves.specs.Step.{HasEventsOf};

use crate::reading::{kind_of, read_drawn, target_of};
use drawn_networks::DrawnNetwork;
use event_graph::{Cause, Network};
use itv_base::{NoMemory, RuleKind};
use std::alloc::Global;

/// Adds a constraint of a drawn network to another network, with other causes on the same events. Both networks have as many events, and there is room for
/// one more constraint.
pub fn push_with(
    alloc: Global,
    drawn: &DrawnNetwork,
    constraint: u32,
    causes: &[Cause],
    grown: &mut Network,
) -> Result<(), NoMemory>
    requires there { constraint < length drawn.now.net.constraints }
    requires events { grown.old.events ≡ drawn.now.net.events }
    requires room { length grown.old.constraints < MAX_CONSTRAINTS }
    requires causes { HasEventsOf drawn.now.net constraint causes.now }
    ensures added { OnOk result (IsSomeAnd (slice_get drawn.now.net.constraints constraint)
        (λ c. grown.new ≡ with_constraint grown.old (record c { causes = causes.now }))) }
{
    read_drawn(drawn);
    let target = target_of(drawn, constraint);
    let kind: RuleKind = kind_of(drawn, constraint);
    match grown.push(alloc, kind, target, causes) {
        Ok(()) => Ok(()),
        Err(_) => Err(NoMemory),
    }
}
