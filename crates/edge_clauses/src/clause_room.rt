//! Puts the clause of a basis into a room.

ghost use Rattle.std.specs.Prelude.{◌≡◌, ◌<◌, IsTrue, IsFalse, List, [], Some, IfOk, length, map, slice_get};
ghost use Rattle.event_graph.specs.Edges.{side_edge};
ghost use Rattle.event_graph.specs.Network.{Constraint, Net};
ghost use Rattle.event_graph.specs.Proof.{HasChoice};
ghost use Rattle.edge_clauses.specs.declared.basis.Basis.TheVariants.{ByChoice, ByEdge, ByKept, Either};
ghost use Rattle.edge_clauses.specs.Checking.{HasNoClause};
ghost use Rattle.edge_clauses.specs.Clauses.{Clause, IsClause};

use crate::basis::Basis;
use crate::edge_list::EdgeList;
use crate::weights::{is_addable, unmet};
use event_graph::{Edge, Network};
use itv_base::{EdgeName, NoMemory, RuleKind, Side};

/// Puts the clause of a basis into a room, in place of what is there. Returns whether the basis has a clause. If not, what is in the room then says
/// nothing.
pub fn fill(
    net: &Network,
    kept: &[EdgeList],
    basis: Basis,
    room: &mut Vec<Edge>,
) -> Result<bool, NoMemory>
    ensures clause { IfOk result (λ found. IsTrue found → IsClause net.now kept.now basis room.new.items) }
    ensures none { IfOk result (λ found. IsFalse found → HasNoClause net.now kept.now basis) }
{
    room.clear();
    match basis {
        Basis::ByEdge(name) => fill_edge(net, name, room),
        Basis::Either(edge) => fill_either(edge, room),
        Basis::ByChoice(number) => fill_choice(net, number, room),
        Basis::ByKept(number) => fill_kept(kept, number, room),
    }
}

// The clause of an always-edge.
fn fill_edge(net: &Network, name: EdgeName, room: &mut Vec<Edge>) -> Result<bool, NoMemory>
    requires empty { room.old.items ≡ [] }
    ensures clause { (kept : List Clause) → IfOk result (λ found. IsTrue found → IsClause net.now kept (ByEdge name) room.new.items) }
    ensures none { (kept : List Clause) → IfOk result (λ found. IsFalse found → HasNoClause net.now kept (ByEdge name)) }
{
    if !net.is_always(name) {
        return Ok(false);
    }
    let Some(edge) = net.edge(name) else {
        return Ok(false);
    };
    room.push(edge)?;
    Ok(true)
}

// The clause of an edge and its opposite.
fn fill_either(edge: Edge, room: &mut Vec<Edge>) -> Result<bool, NoMemory>
    requires empty { room.old.items ≡ [] }
    ensures clause { (net : Net) (kept : List Clause) → IfOk result (λ found. IsTrue found → IsClause net kept (Either edge) room.new.items) }
    ensures none { (net : Net) (kept : List Clause) → IfOk result (λ found. IsFalse found → HasNoClause net kept (Either edge)) }
{
    let other = unmet(edge);
    if !is_addable(edge) || !is_addable(other) {
        return Ok(false);
    }
    room.push(edge)?;
    room.push(other)?;
    Ok(true)
}

// The clause of a latest or earliest constraint.
fn fill_choice(net: &Network, number: u32, room: &mut Vec<Edge>) -> Result<bool, NoMemory>
    requires empty { room.old.items ≡ [] }
    ensures clause { (kept : List Clause) → IfOk result (λ found. IsTrue found → IsClause net.now kept (ByChoice number) room.new.items) }
    ensures none { (kept : List Clause) → IfOk result (λ found. IsFalse found → HasNoClause net.now kept (ByChoice number)) }
{
    if net.len() <= number {
        return Ok(false);
    }
    match net.kind(number) {
        RuleKind::Lin => Ok(false),
        RuleKind::Late => fill_sides(net, number, Side::Upper, room),
        RuleKind::Early => fill_sides(net, number, Side::Lower, room),
    }
}

// The edges of the causes of a constraint on a side. Returns whether no end there is open.
fn fill_sides(
    net: &Network,
    number: u32,
    side: Side,
    room: &mut Vec<Edge>,
) -> Result<bool, NoMemory>
    requires there { number < length net.now.constraints }
    requires empty { room.old.items ≡ [] }
    ensures edges { (k : Constraint) → slice_get net.now.constraints number ≡ Some k → HasChoice k.kind
        → IfOk result (λ found. IsTrue found → map (side_edge side k.target) k.causes ≡ map Some room.new.items) }
    ensures open { (k : Constraint) → slice_get net.now.constraints number ≡ Some k
        → IfOk result (λ found. IsFalse found → (c : Clause) → map (side_edge side k.target) k.causes ≡ map Some c → ⊥) }
{
    let count = net.cause_count(number);
    for cause in 0..count {
        let name = EdgeName {
            constraint: number,
            cause,
            side,
        };
        let Some(edge) = net.edge(name) else {
            return Ok(false);
        };
        room.push(edge)?;
    }
    Ok(true)
}

// The clause that was kept.
fn fill_kept(kept: &[EdgeList], number: u32, room: &mut Vec<Edge>) -> Result<bool, NoMemory>
    requires empty { room.old.items ≡ [] }
    ensures clause { (net : Net) → IfOk result (λ found. IsTrue found → IsClause net kept.now (ByKept number) room.new.items) }
    ensures none { (net : Net) → IfOk result (λ found. IsFalse found → HasNoClause net kept.now (ByKept number)) }
{
    match kept.get(number as usize) {
        Some(clause) => {
            room.extend_from_slice(&clause.edges)?;
            Ok(true)
        }
        None => Ok(false),
    }
}
