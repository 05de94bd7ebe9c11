//! Settling the bounds of a session for a network: each is kept or searched anew.

ghost use Rattle.std.specs.Prelude.{◌≡◌, ◌<◌, ◌≤◌, ◌↔◌, [], All, IsSomeAnd, IsTrue, length, unwrap_or};
ghost use Rattle.event_graph.specs.Satisfying.{Satisfies};
ghost use Rattle.branch.specs.Work.{IsMadeFor};
ghost use Rattle.requirements.specs.declared.consistency.Consistency.TheVariants as findings;
ghost use Rattle.whatif.specs.Session.{AreUpdated, HasPlaces, IsRightFinding, IsSearchedAnew, AreBoundsUpdated, MayKeepFrom};
ghost use Rattle.whatif.specs.Step.Bounds.{IsCloseBound, IsPairIn};
ghost use Rattle.whatif.specs.declared.settling.TheConstants.{MAX_BOUNDS};

use crate::bound::KeptBound;
use crate::change::Change;
use branch::{Quiet, Work, find};
use cert_checker::Checker;
use event_graph::{Network, ScribeFailed};
use requirements::Consistency;

/// The most bounds that a session may have.
pub const MAX_BOUNDS: usize = 128;

/// Settles the finding and the bounds for a network; `found` holds the finding before. If the network has satisfying
/// times now, each bound is kept or searched anew.
pub fn settle(
    net: &Network,
    work: &mut Work,
    checker: &mut Checker,
    budget: u64,
    found: &mut Consistency,
    bounds: &mut [KeptBound],
) -> Change
    requires made { IsMadeFor net.now work.old }
    requires room { checker.old.room ≡ length net.now.constraints }
    requires budget { 0 < budget }
    requires count { length bounds.old ≤ MAX_BOUNDS }
    requires pairs { All (IsPairIn net.now.events) bounds.old }
    requires places { All (HasPlaces net.now.events) bounds.old }
    requires close { found.old ≡ findings.Consistent → All IsCloseBound bounds.old }
    ensures finding { IsRightFinding net.now budget found.new }
    ensures settled { AreBoundsUpdated net.now budget found.old found.new bounds.old bounds.new result }
    ensures places { All (HasPlaces net.now.events) bounds.new }
    ensures room { checker.new.room ≡ checker.old.room }
{
    let was = *found;
    let now = find_times(net, work, budget);
    *found = now;
    match now {
        Consistency::Consistent => settle_bounds(net, work, checker, budget, was, bounds),
        Consistency::Inconsistent | Consistency::Open => Change {
            kept: 0,
            searched: 0,
        },
    }
}

/// The same as `settle`, with working memory of its own, which is given back at the end.
pub fn settle_by(
    net: &Network,
    mut work: Work,
    checker: &mut Checker,
    budget: u64,
    found: &mut Consistency,
    bounds: &mut [KeptBound],
) -> Change
    requires made { IsMadeFor net.now work }
    requires room { checker.old.room ≡ length net.now.constraints }
    requires budget { 0 < budget }
    requires count { length bounds.old ≤ MAX_BOUNDS }
    requires pairs { All (IsPairIn net.now.events) bounds.old }
    requires places { All (HasPlaces net.now.events) bounds.old }
    requires close { found.old ≡ findings.Consistent → All IsCloseBound bounds.old }
    ensures finding { IsRightFinding net.now budget found.new }
    ensures settled { AreBoundsUpdated net.now budget found.old found.new bounds.old bounds.new result }
    ensures places { All (HasPlaces net.now.events) bounds.new }
    ensures room { checker.new.room ≡ checker.old.room }
{
    settle(net, &mut work, checker, budget, found, bounds)
}

// Whether some times satisfy the network. If so, the times are known afterwards.
fn find_times(net: &Network, work: &mut Work, budget: u64) -> Consistency
    requires made { IsMadeFor net.now work.old }
    requires budget { 0 < budget }
    ensures made { IsMadeFor net.now work.new }
    ensures finding { IsRightFinding net.now budget result }
    ensures known { result ≡ findings.Consistent → IsSomeAnd work.new.known (λ times. Satisfies times net.now) }
{
    match find(work, net, budget, &mut Quiet) {
        Ok(found) => found,
        Err(ScribeFailed) => {
            // A quiet scribe never fails.
            unreachable!()
        }
    }
}

// Keeps or searches each bound of a network with known times.
fn settle_bounds(
    net: &Network,
    work: &mut Work,
    checker: &mut Checker,
    budget: u64,
    was: Consistency,
    bounds: &mut [KeptBound],
) -> Change
    requires made { IsMadeFor net.now work.old }
    requires known { IsSomeAnd work.old.known (λ times. Satisfies times net.now) }
    requires room { checker.old.room ≡ length net.now.constraints }
    requires budget { 0 < budget }
    requires count { length bounds.old ≤ MAX_BOUNDS }
    requires pairs { All (IsPairIn net.now.events) bounds.old }
    requires places { All (HasPlaces net.now.events) bounds.old }
    requires close { was ≡ findings.Consistent → All IsCloseBound bounds.old }
    ensures settled { AreUpdated (MayKeepFrom was net.now) (IsSearchedAnew net.now budget (unwrap_or work.old.known [])) bounds.old bounds.new result.kept result.searched }
    ensures places { All (HasPlaces net.now.events) bounds.new }
    ensures room { checker.new.room ≡ checker.old.room }
{
    let mut change = Change {
        kept: 0,
        searched: 0,
    };
    for k in 0..bounds.len() {
        if keeps(net, checker, was, &bounds[k]) {
            change.kept += 1;
        } else {
            bounds[k].search(net, work, budget, was);
            change.searched += 1;
        }
    }
    change
}

// Whether a bound is kept; `was` is the finding before.
fn keeps(net: &Network, checker: &mut Checker, was: Consistency, bound: &KeptBound) -> bool
    requires pair { IsPairIn net.now.events bound.now }
    requires places { HasPlaces net.now.events bound.now }
    requires room { checker.old.room ≡ length net.now.constraints }
    requires close { was ≡ findings.Consistent → IsCloseBound bound.now }
    ensures keeps { IsTrue result ↔ MayKeepFrom was net.now bound.now }
    ensures room { checker.new.room ≡ checker.old.room }
{
    match was {
        Consistency::Consistent => bound.may_keep(net, checker),
        Consistency::Inconsistent | Consistency::Open => false,
    }
}
