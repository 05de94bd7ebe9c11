//! Causes of constraints, with what draws them.

ghost use Rattle.std.specs.Prelude.{◌≡◌, ◌<◌, length, slice_get, IsSome, Some};
ghost use Rattle.event_graph.specs.Edges.{edge};
ghost use Rattle.job_why.specs.Step.{IsBetween, by_words, constraint_at, origins_at};
ghost use Rattle.job_why.specs.Text.{drawn_words, part_of};

use crate::drawn_by::DrawnBy;
use drawn_networks::DrawnNetwork;
use event_graph::Cause;
use itv_base::{EdgeName, EventId, RuleKind};
use origin::{Notes, Origin};

/// A cause of a constraint: the kind and the target of the constraint, the cause itself, and what draws it.
#[derive(Clone, Copy)]
pub struct DrawnCause {
    pub kind: RuleKind,
    pub target: EventId,
    pub cause: Cause,
    pub origin: Origin,
}

/// How many causes a constraint of the network has.
pub fn cause_count(drawn: &DrawnNetwork, number: u32) -> u32
    requires number { number < length drawn.now.net.constraints }
    ensures causes { result ≡ length (constraint_at drawn.now number).causes }
    ensures origins { result ≡ length (origins_at drawn.now number) }
{
    drawn.network().is_whole();
    origins_at(drawn, number).len() as u32
}

/// A cause of a constraint, given by the numbers of both. Both are in the network.
pub fn rule_at(drawn: &DrawnNetwork, number: u32, cause: u32) -> DrawnCause
    requires number { number < length drawn.now.net.constraints }
    requires cause { cause < length (constraint_at drawn.now number).causes }
    ensures kind { result.kind ≡ (constraint_at drawn.now number).kind }
    ensures target { result.target ≡ (constraint_at drawn.now number).target }
    ensures cause { slice_get (constraint_at drawn.now number).causes cause ≡ Some result.cause }
    ensures origin { slice_get (origins_at drawn.now number) cause ≡ Some result.origin }
    ensures between { IsBetween drawn.now.net.events result }
{
    let net = drawn.network();
    net.is_whole();
    DrawnCause {
        kind: net.kind(number),
        target: net.target(number),
        cause: net.cause(number, cause),
        origin: origins_at(drawn, number)[cause as usize],
    }
}

/// What draws the cause of an edge of the network.
pub fn edge_by<'a, N: Notes>(notes: &'a N, drawn: &DrawnNetwork, name: EdgeName) -> DrawnBy<'a>
    requires edge { IsSome (edge drawn.now.net name) }
    ensures words { by_words result ≡ drawn_words (N.noted notes.now) drawn.now name }
{
    let origin = origins_at(drawn, name.constraint)[name.cause as usize];
    DrawnBy::of(notes, part_at(drawn, name.constraint), origin)
}

// What draws each cause of a constraint of the network.
fn origins_at(drawn: &DrawnNetwork, number: u32) -> &[Origin]
    requires number { number < length drawn.now.net.constraints }
    ensures origins { result.now ≡ origins_at drawn.now number }
    ensures fit { length result.now ≡ length (constraint_at drawn.now number).causes }
{
    drawn.origins().get(u64::from(number)).as_slice()
}

// The part of the target of a constraint of the network.
fn part_at(drawn: &DrawnNetwork, number: u32) -> &str
    requires number { number < length drawn.now.net.constraints }
    ensures part { result.now ≡ part_of drawn.now (constraint_at drawn.now number).target }
{
    let net = drawn.network();
    net.is_whole();
    drawn.name(net.target(number)).part
}
