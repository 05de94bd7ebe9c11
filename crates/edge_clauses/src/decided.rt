//! What a proof and times say of a pair.

ghost use Rattle.std.specs.Prelude.{◌≡◌, ◌↔◌, ◌<ℤ◌, IsTrue, All, length};
ghost use Rattle.event_graph.specs.Satisfying.{Satisfies};
ghost use Rattle.event_graph.specs.Times.{IsTime, separation};
ghost use Rattle.edge_clauses.specs.declared.decided.ProofVerdict.TheVariants.{Closed, Open};
ghost use Rattle.edge_clauses.specs.Checking.{IsChecking, IsVerdict, SaysNothing};

use crate::checker::ClauseChecker;
use crate::claim::Claim;
use event_graph::{Network, separation};
use falling::Limits;

/// What a proof and times say of the pair of a goal: its greatest separation in picoseconds, or that no times satisfy
/// the network, or nothing.
#[derive(Clone, Copy)]
pub enum ProofVerdict {
    Closed(i64),
    Inconsistent,
    Open,
}

/// What a checker and times say of the pair of the checker's goal. The times are in picoseconds, one per event. If the
/// lines are a proof with a claim below minus the far line, no times satisfy the network. If they are a proof with a
/// claim below the far line, and the times satisfy the network and attain the claim, the claim is the greatest
/// separation. In every other case the answer is `Open`, which says nothing.
pub fn decide(net: &Network, checker: &ClauseChecker, times: &[i64]) -> ProofVerdict
    requires checking { IsChecking net.now checker.now }
    requires count { length times.now ≡ net.now.events }
    requires times { All IsTime times.now }
    ensures verdict { IsVerdict net.now checker.now.goal times.now result }
    ensures nothing { result ≡ Open → SaysNothing net.now checker.now times.now }
{
    net.is_whole();
    if !checker.is_over() {
        return ProofVerdict::Open;
    }
    if is_low(checker.claim(), checker.limits()) {
        return ProofVerdict::Inconsistent;
    }
    if !is_near(checker.claim(), checker.limits()) {
        return ProofVerdict::Open;
    }
    if !attains(net, checker, times) {
        return ProofVerdict::Open;
    }
    closed_at(checker.claim())
}

// Whether a claim is below minus the far line.
fn is_low(claim: Claim, limits: Limits) -> bool
    ensures { IsTrue result ↔ (claim.value <ℤ limits.lowest) }
{
    claim.value < limits.lowest
}

// Whether a claim is below the far line.
fn is_near(claim: Claim, limits: Limits) -> bool
    ensures { IsTrue result ↔ (claim.value <ℤ limits.far) }
{
    claim.value < limits.far
}

// The verdict that the claim is the greatest separation.
fn closed_at(claim: Claim) -> ProofVerdict
    ensures { result ≡ Closed claim.value }
{
    ProofVerdict::Closed(claim.value)
}

// Whether times satisfy the network and attain the claim of a checker's goal.
fn attains(net: &Network, checker: &ClauseChecker, times: &[i64]) -> bool
    requires checking { IsChecking net.now checker.now }
    requires count { length times.now ≡ net.now.events }
    requires times { All IsTime times.now }
    ensures attains { IsTrue result ↔ (Satisfies times.now net.now
        × (separation times.now checker.now.goal.from checker.now.goal.to ≡ checker.now.goal.claim)) }
{
    separation(times, checker.from(), checker.to()) == checker.claim().value
        && net.broken(times).is_none()
}
