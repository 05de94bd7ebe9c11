//! The search for times that satisfy a network.

ghost use Rattle.std.specs.Prelude.{◌≡◌, ◌<◌, ◌≤◌, ℤ, List, IfOk, IfSome, OnOk, OnErr, Ok, Some, All, length};
ghost use Rattle.itv_base.specs.Outside.{FaultCounted};
ghost use Rattle.event_graph.specs.Network.{IsNet};
ghost use Rattle.event_graph.specs.Proof.{Nothing, ProofLine};
ghost use Rattle.event_graph.specs.RootBound.{MeetsAlways};
ghost use Rattle.diff_bounds.specs.Standing.{IsMadeFor};
ghost use Rattle.branch.specs.Answers.{Finds, IsCounted};
ghost use Rattle.event_graph.specs.Reading.{AtEachSplit};
ghost use Rattle.branch.specs.Lines.{IsAccepted};
ghost use Rattle.branch.specs.Needed.{IsNeededToFind};
ghost use Rattle.branch.specs.Splits.{AreSplits};
ghost use Rattle.branch.specs.Step.Cases.{work_left};
ghost use Rattle.diff_bounds.specs.Limits.{IsTimely};
ghost use Rattle.branch.specs.Step.Searched.{EndsAs, FindAdvances, IsAtCase, IsFindCutAfter, IsTrialFor, Keeps};

use crate::choose::first_broken;
use crate::distances::Distances;
use crate::levels::{start, times_in};
use crate::search::{NextCase, Search, split_case};
use diff_bounds::Fit;
use event_graph::{Network, Scribe, ScribeFailed};
use requirements::Consistency;

/// Looks for times that satisfy a network. The search closes at most `budget` cases. The scribe writes the lines of a proof that
/// there are no such times, or of a stopped one. If there are such times, `candidate` has them.
pub fn find_times<S: Scribe>(
    net: &Network,
    search: &mut Search,
    candidate: &mut [i64],
    distances: &Distances,
    budget: u64,
    scribe: &mut S,
) -> Result<Consistency, ScribeFailed>
    requires made { IsMadeFor net.now search.old.bounds }
    requires net { IsNet net.now }
    requires room { length net.now.constraints ≤ search.old.cases.room }
    requires candidate { length candidate.old ≡ net.now.events }
    requires splits { AreSplits net.now distances.now }
    requires budget { 0 < budget }
    ensures made { IsMadeFor net.now search.new.bounds }
    ensures room { search.new.cases.room ≡ search.old.cases.room }
    ensures near { result ≡ Ok Consistency.Consistent → All IsTimely candidate.new }
    ensures lines { IfOk result (λ found. (lines : List ProofLine) × S.Grew scribe.old lines scribe.new
        × Finds net.now budget lines search.new.leaves (Some candidate.new) found
        × AtEachSplit net.now (IsNeededToFind net.now) lines) }
    ensures count { IsCounted net.now budget search.new.leaves }
    ensures cut { OnErr result ((lines : List ProofLine) × S.WasCut scribe.old lines scribe.new
        × IsAccepted net.now Nothing lines × AtEachSplit net.now (IsNeededToFind net.now) lines) }
    ensures rose { OnErr result (FaultCounted (S.faults scribe.old) (S.faults scribe.new)) }
{
    if start(net, search, None, budget) == Fit::Loop {
        search.leaves = 1;
        scribe.cut_loop(search.bounds.walk())?;
        return Ok(Consistency::Inconsistent);
    }
    'cases: loop {
        match try_times(net, search, candidate, distances, scribe)? {
            None => return Ok(Consistency::Consistent),
            Some(NextCase::AllClosed) => return Ok(Consistency::Inconsistent),
            Some(NextCase::Stopped) => return Ok(Consistency::Open),
            Some(NextCase::Entered) => {}
        }
    }
}

// Tries the times of the case at hand, and splits the case on the first constraint that they break. `None` says that the times
// satisfy the network.
fn try_times<S: Scribe>(
    net: &Network,
    search: &mut Search,
    candidate: &mut [i64],
    distances: &Distances,
    scribe: &mut S,
) -> Result<Option<NextCase>, ScribeFailed>
    requires net { IsNet net.now }
    requires case { IsAtCase net.now search.old }
    requires candidate { length candidate.old ≡ net.now.events }
    requires splits { AreSplits net.now distances.now }
    ensures same { Keeps net.now search.old search.new }
    ensures always { (times : List ℤ) × MeetsAlways times net.now }
    ensures ends { IfOk result (λ end. IfSome end (EndsAs net.now search.new)) }
    ensures advances { IfOk result (λ end. (lines : List ProofLine) × S.Grew scribe.old lines scribe.new
        × FindAdvances net.now search.old search.new candidate.new lines end) }
    ensures cut { OnErr result ((lines : List ProofLine) × S.WasCut scribe.old lines scribe.new
        × IsFindCutAfter net.now search.old.cases.chosen search.old.leaves search.new.leaves lines) }
    ensures within { OnErr result (search.new.leaves ≤ search.new.budget) }
    ensures rose { OnErr result (FaultCounted (S.faults scribe.old) (S.faults scribe.new)) }
    ensures work { IfOk result (λ end. end ≡ Some NextCase.Entered
        → work_left net.now search.new.budget search.new.leaves search.new.cases.chosen
        < work_left net.now search.old.budget search.old.leaves search.old.cases.chosen) }
{
    times_in(net, search, candidate);
    match first_broken(net, candidate, distances) {
        None => {
            search.leaves += 1;
            Ok(None)
        }
        Some(number) => Ok(Some(split_case(net, search, number, scribe)?)),
    }
}
