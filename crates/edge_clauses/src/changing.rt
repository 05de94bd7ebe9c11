//! Lines that change frames, if a proof allows them.

ghost use Rattle.std.specs.Prelude.{◌≡◌, ◌∷◌, [], IsTrue, IsFalse, IsSome, IfOk, OnErr};
ghost use Rattle.event_graph.specs.Network.{Net};
ghost use Rattle.falling.specs.DerivationEnds.{AreLimits};
ghost use Rattle.edge_clauses.specs.Checking.{SomeClause};
ghost use Rattle.edge_clauses.specs.Lines.{Forces, LetsFall, LetsRise, with_known, with_low, with_up};
ghost use Rattle.edge_clauses.specs.Step.Standing.{KeepsOutside, frame_now, goal_of};

use crate::basis::Basis;
use crate::clause_room::fill;
use crate::edge_list::EdgeList;
use crate::frames::Frames;
use crate::judge::{forces, lets_fall, lets_rise};
use crate::line::EventBound;
use crate::terms::Terms;
use event_graph::{Edge, Network};
use itv_base::NoMemory;

/// Lets the upper bound of an event fall, if it may.
pub fn fall_in(
    net: &Network,
    kept: &[EdgeList],
    frames: &mut Frames,
    terms: Terms,
    bound: EventBound,
    room: &mut Vec<Edge>,
) -> Result<bool, NoMemory>
    requires limits { AreLimits net.now terms.limits }
    ensures allowed { IfOk result (λ taken. IsTrue taken → SomeClause net.now kept.now bound.basis (LetsFall net.now (goal_of terms) (frame_now frames.old) bound.event bound.value)) }
    ensures now { IfOk result (λ taken. IsTrue taken → frame_now frames.new ≡ with_up (frame_now frames.old) bound.event bound.value) }
    ensures outside { IfOk result (λ taken. IsTrue taken → KeepsOutside frames.old frames.new) }
    ensures refused { IfOk result (λ taken. IsFalse taken → SomeClause net.now kept.now bound.basis (LetsFall net.now (goal_of terms) (frame_now frames.old) bound.event bound.value) → ⊥) }
    ensures unchanged { IfOk result (λ taken. IsFalse taken → frames.new ≡ frames.old) }
    ensures kept { OnErr result (frames.new ≡ frames.old) }
{
    if !fill(net, kept, bound.basis, room)? {
        return Ok(false);
    }
    if !lets_fall(frames, terms, bound, room) {
        return Ok(false);
    }
    frames.fall(bound)?;
    Ok(true)
}

/// Lets the lower bound of an event rise, if it may.
pub fn rise_in(
    net: &Network,
    kept: &[EdgeList],
    frames: &mut Frames,
    terms: Terms,
    bound: EventBound,
    room: &mut Vec<Edge>,
) -> Result<bool, NoMemory>
    requires limits { AreLimits net.now terms.limits }
    ensures allowed { IfOk result (λ taken. IsTrue taken → SomeClause net.now kept.now bound.basis (LetsRise net.now (goal_of terms) (frame_now frames.old) bound.event bound.value)) }
    ensures now { IfOk result (λ taken. IsTrue taken → frame_now frames.new ≡ with_low (frame_now frames.old) bound.event bound.value) }
    ensures outside { IfOk result (λ taken. IsTrue taken → KeepsOutside frames.old frames.new) }
    ensures refused { IfOk result (λ taken. IsFalse taken → SomeClause net.now kept.now bound.basis (LetsRise net.now (goal_of terms) (frame_now frames.old) bound.event bound.value) → ⊥) }
    ensures unchanged { IfOk result (λ taken. IsFalse taken → frames.new ≡ frames.old) }
    ensures kept { OnErr result (frames.new ≡ frames.old) }
{
    if !fill(net, kept, bound.basis, room)? {
        return Ok(false);
    }
    if !lets_rise(frames, terms, bound, room) {
        return Ok(false);
    }
    frames.rise(bound)?;
    Ok(true)
}

/// Makes an edge known, if it may be known.
pub fn know_in(
    net: &Network,
    kept: &[EdgeList],
    frames: &mut Frames,
    terms: Terms,
    known: KnownBy,
    room: &mut Vec<Edge>,
) -> Result<bool, NoMemory>
    ensures allowed { IfOk result (λ taken. IsTrue taken → SomeClause net.now kept.now known.basis (Forces (goal_of terms) (frame_now frames.old) known.edge)) }
    ensures now { IfOk result (λ taken. IsTrue taken → frame_now frames.new ≡ with_known (frame_now frames.old) (known.edge ∷ [])) }
    ensures outside { IfOk result (λ taken. IsTrue taken → KeepsOutside frames.old frames.new) }
    ensures refused { IfOk result (λ taken. IsFalse taken → SomeClause net.now kept.now known.basis (Forces (goal_of terms) (frame_now frames.old) known.edge) → ⊥) }
    ensures unchanged { IfOk result (λ taken. IsFalse taken → frames.new ≡ frames.old) }
    ensures kept { OnErr result (frames.new ≡ frames.old) }
{
    if !fill(net, kept, known.basis, room)? {
        return Ok(false);
    }
    if !forces(frames, terms, known.edge, room) {
        return Ok(false);
    }
    frames.know(known.edge)?;
    Ok(true)
}

/// An edge that is to become known, and the basis of the clause that makes it known.
#[derive(Clone, Copy)]
pub struct KnownBy {
    pub edge: Edge,
    pub basis: Basis,
}
