//! Whether a report may have a finding or a bound after some proof lines. It is known whether these lines are a whole
//! proof.

ghost use Rattle.std.specs.Prelude.{◌≡◌, ◌↔◌, ◌<◌, neg_ℤ, List, Some, IfSome, IsTrue};
ghost use Rattle.branch.specs.Answers.{IsRoot, IsRootReach};
ghost use Rattle.branch.specs.Work.{IsMadeFor};
ghost use Rattle.event_graph.specs.Limits.{IsReach};
ghost use Rattle.event_graph.specs.Proof.{Nothing, ProofLine};
ghost use Rattle.event_graph.specs.RootBound.{IsRootBound};
ghost use Rattle.requirements.specs.Bounds.{HasTimes};
ghost use Rattle.right_report.specs.Right.LineClaims.{HasAttained, IsLimit};
ghost use Rattle.right_report.specs.Checked.{IsWithinTimes, ProvesBound, ProvesFinding};
ghost use Rattle.job_check.specs.Step.Bounds.{IsBetween, SomeMeet, goal_for, reversed_root};
ghost use Rattle.job_check.specs.Step.Groups.{IsWholeFor};
ghost use Rattle.job_check.specs.Step.Stages.{next_in};

use crate::stage::NextBound;
use crate::times::is_time;
use branch::{Root, Work, root_bound};
use drawn_networks::Row;
use event_graph::Network;
use itv_base::EventId;
use requirements::{Bound, Consistency};

/// Whether a finding may stand after proof lines. `whole` says whether they prove that no times satisfy.
pub fn proves_finding(net: &Network, work: &mut Work, word: Consistency, whole: bool) -> bool
    requires made { IsMadeFor net.now work.old }
    ensures proves { (lines : List ProofLine) → (word ≡ Consistency.Inconsistent → IsWholeFor net.now (Some Nothing) lines whole)
        → (IsTrue result ↔ ProvesFinding net.now lines word) }
    ensures made { IsMadeFor net.now work.new }
{
    match word {
        Consistency::Consistent => true,
        Consistency::Inconsistent => whole,
        Consistency::Open => some_meet(net, work),
    }
}

// Whether some times meet the always-edges.
fn some_meet(net: &Network, work: &mut Work) -> bool
    requires made { IsMadeFor net.now work.old }
    ensures some { IsTrue result ↔ SomeMeet net.now }
    ensures made { IsMadeFor net.now work.new }
{
    // A network without events has no constraints.
    if net.events() == 0 {
        return true;
    }
    is_bound(root_bound(work, net, EventId(0), EventId(0)))
}

// Whether a root bound is there.
fn is_bound(root: Root) -> bool
    ensures bound { IsTrue result ↔ (root ≡ Root.NoTimes → ⊥) }
{
    match root {
        Root::NoTimes => false,
        Root::Bound(_) => true,
    }
}

/// Whether a bound of a row may stand after a finding and after proof lines. `whole` says whether these lines prove
/// it.
pub fn proves_bound(
    net: &Network,
    work: &mut Work,
    found: Consistency,
    row: &Row,
    coming: NextBound,
    value: Bound,
    whole: bool,
) -> bool
    requires made { IsMadeFor net.now work.old }
    requires between { IsBetween net.now row.now }
    ensures proves { (lines : List ProofLine) → IsWholeFor net.now (goal_for row.now (next_in coming) value) lines whole
        → (IsTrue result ↔ (IsWithinTimes value × ProvesBound net.now found row.now (next_in coming) lines value)) }
    ensures times { IsTrue result → HasTimes value }
    ensures made { IsMadeFor net.now work.new }
{
    match value {
        Bound::Closed(value) => is_time(value) && found == Consistency::Consistent && whole,
        Bound::Unbounded => found == Consistency::Consistent,
        Bound::Within { limit, attained } => {
            attained.is_none_or(is_time)
                && has_attained(found, attained)
                && is_limit(net, work, row, coming, limit)
        }
    }
}

// Whether the attained number is there if the finding is consistent, and not there if it is unsettled.
fn has_attained(found: Consistency, attained: Option<i64>) -> bool
    ensures attained { IsTrue result ↔ HasAttained found attained }
{
    match found {
        Consistency::Consistent => attained.is_some(),
        Consistency::Inconsistent => false,
        Consistency::Open => attained.is_none(),
    }
}

// Whether a limit is the root bound of a row on a side.
fn is_limit(
    net: &Network,
    work: &mut Work,
    row: &Row,
    coming: NextBound,
    limit: Option<i64>,
) -> bool
    requires made { IsMadeFor net.now work.old }
    requires between { IsBetween net.now row.now }
    ensures limit { IsTrue result ↔ IsLimit net.now row.now (next_in coming) limit }
    ensures within { IsTrue result → IfSome limit IsReach }
    ensures made { IsMadeFor net.now work.new }
{
    let root = match coming {
        NextBound::Greatest => root_bound(work, net, row.from, row.to),
        NextBound::LeastBy(_) => reversed_root(root_bound(work, net, row.to, row.from)),
    };
    is_root(root, limit)
}

// A root bound with its number negated.
fn reversed_root(root: Root) -> Root
    requires within { IsRootReach root }
    ensures root { result ≡ reversed_root root }
    ensures within { IsRootReach result }
{
    match root {
        Root::NoTimes => Root::NoTimes,
        Root::Bound(upper) => Root::Bound(upper.map(negated)),
    }
}

// Minus a number of picoseconds.
fn negated(value: i64) -> i64
    requires { IsReach value }
    ensures value { result ≡ neg_ℤ value }
    ensures within { IsReach result }
{
    -value
}

// Whether a limit is a root bound.
fn is_root(root: Root, limit: Option<i64>) -> bool
    requires within { IsRootReach root }
    ensures root { IsTrue result ↔ (root ≡ Root.Bound limit) }
    ensures within { IsTrue result → IfSome limit IsReach }
{
    match root {
        Root::NoTimes => false,
        Root::Bound(upper) => upper == limit,
    }
}
