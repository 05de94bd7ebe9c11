//! A search whose proof is kept in memory, proved from the public clauses of the search and of the scribe alone.

ghost use Rattle.std.specs.Prelude.{◌<◌, IfOk, IfSome};
ghost use Rattle.event_graph.specs.Network.{IsNet};
ghost use Rattle.event_graph.specs.Proof.{IsProof, Nothing};

use branch::{Work, find};
use certificate::TreeScribe;
use event_graph::Network;
use itv_base::NoMemory;
use requirements::Consistency;
use std::alloc::Global;

/// The lines of a proof that no times satisfy a network, kept in room for so many lines and edges. `None` if some times
/// satisfy, if the budget ended the search, or if the lines did not fit.
pub fn kept_proof(
    alloc: Global,
    net: &Network,
    budget: u64,
    lines: u32,
    edges: u32,
) -> Result<Option<TreeScribe>, NoMemory>
    requires budget { 0 < budget }
    ensures proof { IfOk result (λ kept. IfSome kept (λ tree. IsProof net.now Nothing tree.lines)) }
{
    let mut work = Work::new(alloc, net)?;
    let mut kept = TreeScribe::new(alloc, lines, edges)?;
    match find(&mut work, net, budget, &mut kept) {
        Ok(Consistency::Inconsistent) => Ok(Some(kept)),
        _ => Ok(None),
    }
}
