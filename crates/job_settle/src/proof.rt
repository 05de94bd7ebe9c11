//! Proofs that are printed.

ghost use Rattle.std.specs.Prelude.{◌≤◌, ℤ, length};
ghost use Rattle.itv_base.specs.Outside.{Puts};
ghost use Rattle.itv_base.specs.declared.names.EventId.{EventId};
ghost use Rattle.event_graph.specs.Network.{Net};
ghost use Rattle.line_words.specs.Numbers.{IsLong};
ghost use Rattle.edge_clauses.specs.Proofs.{IsProofAs};
ghost use Rattle.job_settle.specs.Answers.{ProvesClaim};
ghost use Rattle.job_settle.specs.Text.{shown_text};

use clause_texts::{have_texts, write_proof};
use edge_clauses::{Claim, StoredLine};
use falling::View;
use itv_base::{PutFailed, Sink};
use line_words::LineBuffer;
use std::alloc::Global;

/// What the lines prove: no satisfying separation of a pair exceeds the claim, in picoseconds.
#[derive(Drop)]
pub struct Proof {
    /// Whether the lines are a proof in the network, or in its negation with the pair turned round.
    pub view: View,
    pub claim: i64,
    /// Empty if no proofs are wanted.
    pub lines: Vec<StoredLine>,
}

/// The proof of a claim by lines in a view. If no proofs are wanted, the lines are dropped.
pub fn proof_of(
    alloc: Global,
    view: View,
    claim: Claim,
    lines: Vec<StoredLine>,
    is_wanted: bool,
) -> Proof
    ensures proves { (net : Net) (from to : EventId) → IsProofAs view net from to claim.value lines.items → ProvesClaim is_wanted net from to claim.value result }
    ensures lines { length result.lines.items ≤ length lines.items }
    ensures fits { IsLong result.claim }
{
    if is_wanted {
        have_texts(&lines);
        Proof {
            view,
            claim: claim.value,
            lines,
        }
    } else {
        Proof {
            view,
            claim: claim.value,
            lines: Vec::new(alloc),
        }
    }
}

/// Puts a proof, if proofs are wanted.
pub fn put_proof<K: Sink>(
    cert: bool,
    proof: &Proof,
    buffer: &mut LineBuffer,
    sink: &mut K,
) -> Result<(), PutFailed>
    ensures puts { Puts (K.state sink.old) (K.state sink.new) (shown_text cert proof.now) result }
{
    if cert {
        write_proof(proof.view, proof.claim, &proof.lines, buffer, sink)
    } else {
        Ok(())
    }
}
