//! The search for the greatest separation of a pair of events.

ghost use Rattle.std.specs.Prelude.{◌≡◌, ◌<◌, ◌≤◌, ◌≤ℤ◌, ℤ, List, [], IfOk, IfSome, OnOk, OnErr, Some, All, length};
ghost use Rattle.itv_base.specs.Outside.{FaultCounted};
ghost use Rattle.event_graph.specs.Network.{IsNet};
ghost use Rattle.event_graph.specs.Proof.{Bound as BoundGoal, ProofLine};
ghost use Rattle.event_graph.specs.Satisfying.{Satisfies};
ghost use Rattle.event_graph.specs.Times.{separation};
ghost use Rattle.diff_bounds.specs.Standing.{IsMadeFor};
ghost use Rattle.branch.specs.Answers.{IsGreatestAnswer, IsCounted, IsRoot, IsRootReach};
ghost use Rattle.event_graph.specs.Reading.{AtEachSplit};
ghost use Rattle.branch.specs.Lines.{IsAccepted};
ghost use Rattle.branch.specs.Needed.{IsNeededToBound};
ghost use Rattle.branch.specs.Work.{IsClose};
ghost use Rattle.branch.specs.Step.Cases.{work_left};
ghost use Rattle.branch.specs.Step.Raising.{IsNearSeparation};
ghost use Rattle.branch.specs.Step.Searched.{Advances, IsBestSoFar, EndsAs, SearchEnds, IsAtCase, IsBoundCut, IsCutAfter, IsTrialFor, Keeps, aimed};

use crate::answer::Root;
use crate::best::{Aim, Best};
use crate::levels::{start, upper_in};
use crate::look::{Look, look_at_case};
use crate::search::{NextCase, Search, close_case, split_case};
use crate::trial::Trial;
use diff_bounds::Fit;
use event_graph::{Network, Scribe, ScribeFailed};
use itv_base::EventId;
use requirements::Bound;

/// Finds the greatest separation of the pair of an aim. The search starts from the times in `best`, and closes at most `budget`
/// cases. The scribe writes the lines of a proof, or of a stopped one.
pub fn bound_pair<S: Scribe>(
    net: &Network,
    search: &mut Search,
    trial: &mut Trial,
    best: &mut Best,
    aim: Aim,
    budget: u64,
    scribe: &mut S,
) -> Result<Bound, ScribeFailed>
    requires made { IsMadeFor net.now search.old.bounds }
    requires net { IsNet net.now }
    requires room { length net.now.constraints ≤ search.old.cases.room }
    requires from { aim.from.0 < net.now.events }
    requires to { aim.to.0 < net.now.events }
    requires near { IsNearSeparation aim.known }
    requires known { aim.known ≡ best.old.value }
    requires best { IsBestSoFar net.now aim best.old }
    requires trial { IsTrialFor net.now trial.old }
    requires budget { 0 < budget }
    ensures made { IsMadeFor net.now search.new.bounds }
    ensures room { search.new.cases.room ≡ search.old.cases.room }
    ensures trial { IsTrialFor net.now trial.new }
    ensures places { length best.new.times.items ≡ net.now.events }
    ensures lines { IfOk result (λ answer. (lines : List ProofLine) × S.Grew scribe.old lines scribe.new
        × IsGreatestAnswer (aimed net.now aim budget)
        (record { lines = lines; leaves = search.new.leaves; times = best.new.times.items; ray = trial.new.ray.items }) answer
        × AtEachSplit net.now (IsNeededToBound net.now aim.from aim.to aim.known) lines) }
    ensures count { IsCounted net.now budget search.new.leaves }
    ensures times { OnOk result (Satisfies best.new.times.items net.now) }
    ensures close { OnOk result (All IsClose best.new.times.items) }
    ensures least { OnOk result (aim.known ≤ℤ separation best.new.times.items aim.from aim.to) }
    ensures cut { OnErr result ((lines : List ProofLine) × S.WasCut scribe.old lines scribe.new
        × ((value : ℤ) × IsAccepted net.now (BoundGoal aim.from aim.to value) lines)
        × AtEachSplit net.now (IsNeededToBound net.now aim.from aim.to aim.known) lines) }
    ensures rose { OnErr result (FaultCounted (S.faults scribe.old) (S.faults scribe.new)) }
{
    if start(net, search, Some(aim.from), budget) == Fit::Loop {
        // This can't happen: the times in `best` meet the always-edges.
        unreachable!()
    }
    let upper = upper_in(net, search, aim.to);
    match search_bound(net, search, trial, best, aim, scribe)? {
        Ending::Shown => Ok(Bound::Closed(best.value)),
        Ending::Raised => Ok(Bound::Unbounded),
        Ending::Ended => Ok(Bound::Within {
            limit: upper,
            attained: Some(best.value),
        }),
    }
}

/// The root bound of a pair of events.
pub fn root_of(net: &Network, search: &mut Search, from: EventId, to: EventId) -> Root
    requires made { IsMadeFor net.now search.old.bounds }
    requires net { IsNet net.now }
    requires from { from.0 < net.now.events }
    requires to { to.0 < net.now.events }
    ensures root { IsRoot net.now from to result }
    ensures within { IsRootReach result }
    ensures made { IsMadeFor net.now search.new.bounds }
    ensures room { search.new.cases.room ≡ search.old.cases.room }
    ensures leaves { search.new.leaves ≡ search.old.leaves }
{
    let leaves = search.leaves;
    let fit = start(net, search, Some(from), 0);
    search.leaves = leaves;
    match fit {
        Fit::Loop => Root::NoTimes,
        Fit::Fits => Root::Bound(upper_in(net, search, to)),
    }
}

/// How the search for a bound ends.
#[derive(Clone, Copy)]
pub enum Ending {
    /// The best separation is the greatest.
    Shown,
    /// The budget is used up.
    Ended,
    /// The times can be raised without end.
    Raised,
}

// Searches the cases of a network for a separation greater than the separation in `best`.
fn search_bound<S: Scribe>(
    net: &Network,
    search: &mut Search,
    trial: &mut Trial,
    best: &mut Best,
    aim: Aim,
    scribe: &mut S,
) -> Result<Ending, ScribeFailed>
    requires net { IsNet net.now }
    requires case { IsAtCase net.now search.old }
    requires root { search.old.cases.chosen ≡ [] }
    requires leaves { search.old.leaves ≡ 0 }
    requires source { search.old.bounds.source ≡ Some aim.from }
    requires from { aim.from.0 < net.now.events }
    requires to { aim.to.0 < net.now.events }
    requires near { IsNearSeparation aim.known }
    requires known { aim.known ≡ best.old.value }
    requires best { IsBestSoFar net.now aim best.old }
    requires trial { IsTrialFor net.now trial.old }
    ensures same { Keeps net.now search.old search.new }
    ensures trial { IsTrialFor net.now trial.new }
    ensures places { length best.new.times.items ≡ net.now.events }
    ensures within { search.new.leaves ≤ search.new.budget }
    ensures ends { IfOk result (λ ending. (lines : List ProofLine) × S.Grew scribe.old lines scribe.new
        × SearchEnds net.now aim search.new best.new trial.new.ray.items lines ending) }
    ensures cut { OnErr result ((lines : List ProofLine) × S.WasCut scribe.old lines scribe.new
        × IsBoundCut net.now aim search.new.leaves lines) }
    ensures rose { OnErr result (FaultCounted (S.faults scribe.old) (S.faults scribe.new)) }
{
    'cases: loop {
        match step(net, search, trial, best, aim, scribe)? {
            None => return Ok(Ending::Raised),
            Some(NextCase::AllClosed) => return Ok(Ending::Shown),
            Some(NextCase::Stopped) => return Ok(Ending::Ended),
            Some(NextCase::Entered) => {}
        }
    }
}

// Looks at the case at hand, and does what the look says. `None` says that the pair is unbounded.
fn step<S: Scribe>(
    net: &Network,
    search: &mut Search,
    trial: &mut Trial,
    best: &mut Best,
    aim: Aim,
    scribe: &mut S,
) -> Result<Option<NextCase>, ScribeFailed>
    requires net { IsNet net.now }
    requires case { IsAtCase net.now search.old }
    requires source { search.old.bounds.source ≡ Some aim.from }
    requires from { aim.from.0 < net.now.events }
    requires to { aim.to.0 < net.now.events }
    requires near { IsNearSeparation aim.known }
    requires best { IsBestSoFar net.now aim best.old }
    requires trial { IsTrialFor net.now trial.old }
    ensures same { Keeps net.now search.old search.new }
    ensures trial { IsTrialFor net.now trial.new }
    ensures places { length best.new.times.items ≡ net.now.events }
    ensures ends { IfOk result (λ end. IfSome end (EndsAs net.now search.new)) }
    ensures advances { IfOk result (λ end. (lines : List ProofLine) × S.Grew scribe.old lines scribe.new
        × Advances net.now aim (record { search = search.old; best = best.old }) (record { search = search.new; best = best.new })
        trial.new.ray.items lines end) }
    ensures cut { OnErr result ((lines : List ProofLine) × S.WasCut scribe.old lines scribe.new
        × IsCutAfter net.now aim best.old.value search.old.cases.chosen search.old.leaves search.new.leaves lines) }
    ensures within { OnErr result (search.new.leaves ≤ search.new.budget) }
    ensures rose { OnErr result (FaultCounted (S.faults scribe.old) (S.faults scribe.new)) }
    ensures work { IfOk result (λ end. end ≡ Some NextCase.Entered
        → work_left net.now search.new.budget search.new.leaves search.new.cases.chosen
        < work_left net.now search.old.budget search.old.leaves search.old.cases.chosen) }
{
    match look_at_case(net, search, trial, aim, best.value) {
        Look::Splits(number) => Ok(Some(split_case(net, search, number, scribe)?)),
        Look::Beaten => Ok(Some(close_case(net, search, aim.to, scribe)?)),
        Look::Attained(value) => {
            best.take(value, &trial.candidate);
            Ok(Some(close_case(net, search, aim.to, scribe)?))
        }
        Look::Unbounded => {
            best.take(aim.known, &trial.candidate);
            search.leaves += 1;
            Ok(None)
        }
    }
}
