//! The constraints and causes of a drawn network, and what draws the causes.

ghost use Rattle.std.specs.Prelude.{◌≡◌, ◌<◌, ◌≤◌, All, Some, length, option_map, slice_get};
ghost use Rattle.itv_base.specs.declared.limits.TheConstants.{MAX_CAUSES};
ghost use Rattle.event_graph.specs.Network.{Constraint, IsNet};
ghost use Rattle.drawn_networks.specs.Drawn.{OriginsFit};
ghost use Rattle.drawn_networks.specs.declared.row.Row.{Row as DrawnRow};
ghost use Rattle.drawn_numbers.specs.Numbers.{origins_of, part_of_target};
ghost use Rattle.moves.specs.Step.{AreKindEnds, causes_at};

use drawn_networks::DrawnNetwork;
use event_graph::Cause;
use itv_base::{EventId, RowKind, RuleKind};
use origin::Origin;

/// Reads a drawn network. So contracts know that its network is within the limits, and that each cause has an origin.
pub fn read_drawn(drawn: &DrawnNetwork)
    ensures net { IsNet drawn.now.net }
    ensures fit { OriginsFit drawn.now.net drawn.now.origins }
{
    drawn.network().is_whole();
    drawn.origins();
}

/// Reads the rows of a drawn network. So contracts know that the ends of their ranges are within the limit.
pub fn read_rows(drawn: &DrawnNetwork)
    ensures ends { All (λ (row : DrawnRow). AreKindEnds row.kind) drawn.now.rows }
{
    for k in 0..drawn.rows().len() {
        read_kind(drawn.rows().get(k).kind);
    }
}

// Reads what is wanted.
fn read_kind(kind: RowKind)
    ensures { AreKindEnds kind }
{
    match kind {
        RowKind::Ask => {}
        RowKind::Req(range) => {
            range.low();
            range.high();
        }
    }
}

/// The kind of a constraint.
pub fn kind_of(drawn: &DrawnNetwork, constraint: u32) -> RuleKind
    requires there { constraint < length drawn.now.net.constraints }
    ensures kind { option_map (λ (c : Constraint). c.kind) (slice_get drawn.now.net.constraints constraint) ≡ Some result }
{
    drawn.network().kind(constraint)
}

/// The target of a constraint. It is an event of the network.
pub fn target_of(drawn: &DrawnNetwork, constraint: u32) -> EventId
    requires there { constraint < length drawn.now.net.constraints }
    ensures target { option_map (λ (c : Constraint). c.target) (slice_get drawn.now.net.constraints constraint) ≡ Some result }
    ensures within { result.0 < drawn.now.net.events }
{
    read_drawn(drawn);
    drawn.network().target(constraint)
}

/// The part of the target of a constraint.
pub fn part_of_target(drawn: &DrawnNetwork, constraint: u32) -> &str
    requires there { constraint < length drawn.now.net.constraints }
    ensures part { result.now ≡ part_of_target drawn.now constraint }
{
    drawn.name(target_of(drawn, constraint)).part
}

/// What draws the causes of a constraint, in the order of the causes.
pub fn origins_of(drawn: &DrawnNetwork, constraint: u32) -> &[Origin]
    requires there { constraint < length drawn.now.net.constraints }
    ensures origins { result.now ≡ origins_of drawn.now constraint }
    ensures few { length result.now ≤ MAX_CAUSES }
{
    read_drawn(drawn);
    drawn.origins().get(u64::from(constraint)).as_slice()
}

/// A cause of a constraint, with the number that what draws it has. Its event is one of the network.
pub fn cause_of(drawn: &DrawnNetwork, constraint: u32, cause: u32) -> Cause
    requires there { cause < length (origins_of drawn.now constraint) }
    ensures cause { slice_get (causes_at drawn.now.net constraint) cause ≡ Some result }
    ensures within { result.event.0 < drawn.now.net.events }
{
    read_drawn(drawn);
    drawn.network().cause(constraint, cause)
}
