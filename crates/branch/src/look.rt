//! What to do with a case in the search for a bound.

ghost use Rattle.std.specs.Prelude.{◌≡◌, ◌<◌, ◌<ℤ◌, ℤ, Some, None, length};
ghost use Rattle.event_graph.specs.Network.{IsNet};
ghost use Rattle.branch.specs.Step.Cases.{IsSearchCase};
ghost use Rattle.branch.specs.Step.Raising.{IsNearSeparation};
ghost use Rattle.branch.specs.Step.Searched.{IsTrialFor, Looks};
ghost use Rattle.branch.specs.Step.Standing.{HasNoUpper, HasUpper, IsUpperIn, StandsOn};

use crate::best::Aim;
use crate::choose::{first_broken, nearest_broken, nearest_open};
use crate::levels::{ray_in, times_in, upper_in};
use crate::raise::raise;
use crate::search::Search;
use crate::trial::Trial;
use event_graph::Network;

/// What to do with a case.
#[derive(Clone, Copy)]
pub enum Look {
    /// Close it: its greatest separation is no more than the best.
    Beaten,
    /// Close it: the candidate times satisfy the network and attain its greatest separation, which is this number of picoseconds.
    Attained(i64),
    /// Split it on the constraint of this number.
    Splits(u32),
    /// The candidate times satisfy the network, and can be raised without end.
    Unbounded,
}

/// Looks at the case at hand, on which the bounds stand from the first event of the pair.
pub fn look_at_case(net: &Network, search: &Search, trial: &mut Trial, aim: Aim, best: i64) -> Look
    requires net { IsNet net.now }
    requires case { IsSearchCase net.now search.now.cases.chosen }
    requires stands { StandsOn net.now search.now.cases.chosen search.now.bounds }
    requires source { search.now.bounds.source ≡ Some aim.from }
    requires from { aim.from.0 < net.now.events }
    requires to { aim.to.0 < net.now.events }
    requires known { IsNearSeparation aim.known }
    requires trial { IsTrialFor net.now trial.old }
    ensures trial { IsTrialFor net.now trial.new }
    ensures looks { Looks net.now aim best search.now trial.new result }
{
    match upper_in(net, search, aim.to) {
        Some(upper) if upper <= best => Look::Beaten,
        Some(upper) => look_at_bound(net, search, trial, aim, upper),
        None => look_at_ray(net, search, trial, aim),
    }
}

// Looks at a case with a greatest separation beyond the best so far.
fn look_at_bound(net: &Network, search: &Search, trial: &mut Trial, aim: Aim, upper: i64) -> Look
    requires net { IsNet net.now }
    requires case { IsSearchCase net.now search.now.cases.chosen }
    requires stands { StandsOn net.now search.now.cases.chosen search.now.bounds }
    requires source { search.now.bounds.source ≡ Some aim.from }
    requires to { aim.to.0 < net.now.events }
    requires value { HasUpper search.now.bounds aim.to upper }
    requires upper { IsUpperIn net.now search.now.cases.chosen aim.from aim.to (Some upper) }
    requires trial { IsTrialFor net.now trial.old }
    ensures trial { IsTrialFor net.now trial.new }
    ensures looks { (best : ℤ) → best <ℤ upper → Looks net.now aim best search.now trial.new result }
{
    times_in(net, search, &mut trial.candidate);
    match nearest_broken(
        net,
        &trial.candidate,
        &search.cases,
        aim.to,
        &mut trial.distances,
    ) {
        None => Look::Attained(upper),
        Some(number) => Look::Splits(number),
    }
}

// Looks at a case without a greatest separation.
fn look_at_ray(net: &Network, search: &Search, trial: &mut Trial, aim: Aim) -> Look
    requires net { IsNet net.now }
    requires case { IsSearchCase net.now search.now.cases.chosen }
    requires stands { StandsOn net.now search.now.cases.chosen search.now.bounds }
    requires source { search.now.bounds.source ≡ Some aim.from }
    requires upper { IsUpperIn net.now search.now.cases.chosen aim.from aim.to None }
    requires none { HasNoUpper search.now.bounds aim.to }
    requires from { aim.from.0 < net.now.events }
    requires to { aim.to.0 < net.now.events }
    requires known { IsNearSeparation aim.known }
    requires trial { IsTrialFor net.now trial.old }
    ensures trial { IsTrialFor net.now trial.new }
    ensures looks { (best : ℤ) → Looks net.now aim best search.now trial.new result }
{
    ray_in(
        net,
        search,
        aim.from,
        aim.to,
        &mut trial.candidate,
        &mut trial.ray,
    );
    raise(
        &mut trial.candidate,
        &trial.ray,
        aim.from,
        aim.to,
        aim.known,
    );
    match first_broken(net, &trial.candidate, &trial.distances) {
        None => Look::Unbounded,
        Some(first) => Look::Splits(nearest_open(
            net,
            &trial.candidate,
            first,
            &search.cases,
            aim.to,
            &mut trial.distances,
        )),
    }
}
