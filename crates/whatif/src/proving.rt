//! Lines of a proof that were kept, checked anew.

ghost use Rattle.std.specs.Prelude.{◌≡◌, ◌<◌, ◌+◌, ◌∷◌, ◌↔◌, [], IsTrue, MatchBool, length, take};
ghost use Rattle.event_graph.specs.Proof.{IsProof, ProofLeaves};
ghost use Rattle.cert_checker.specs.Checking.{IsProofCheckerFor, goal_view, open_cases};

use cert_checker::{Checker, Goal};
use certificate::TreeScribe;
use event_graph::Network;

/// Whether lines that were kept are a proof of a goal for a network. The checker is made for networks with as many
/// constraints. Takes no memory.
pub fn is_proof(net: &Network, checker: &mut Checker, goal: Goal, proof: &TreeScribe) -> bool
    requires room { checker.old.room ≡ length net.now.constraints }
    ensures proof { IsTrue result ↔ IsProof net.now (goal_view goal) proof.now.lines }
    ensures room { checker.new.room ≡ checker.old.room }
{
    checker.begin(net, goal);
    for k in 0..proof.len() {
        if !takes(net, checker, proof, k) {
            return false;
        }
    }
    checker.is_done()
}

// Takes the next line. Returns whether it has no fault.
fn takes(net: &Network, checker: &mut Checker, proof: &TreeScribe, k: u64) -> bool
    requires stands { IsProofCheckerFor net.now checker.old }
    requires line { k < length proof.now.lines }
    requires reads { ProofLeaves net.now checker.old.goal ([] ∷ []) (take k proof.now.lines) (open_cases net.now checker.old) }
    ensures taken { MatchBool result
        (ProofLeaves net.now checker.old.goal ([] ∷ []) (take (k + 1) proof.now.lines) (open_cases net.now checker.new))
        (IsProof net.now checker.old.goal proof.now.lines → ⊥) }
    ensures goal { checker.new.goal ≡ checker.old.goal }
    ensures stands { IsProofCheckerFor net.now checker.new }
{
    checker.take(net, &proof.line(k)).is_ok()
}
