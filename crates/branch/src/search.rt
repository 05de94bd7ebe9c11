//! The steps of a search. Each goes from one open case to the next.

ghost use Rattle.std.specs.Prelude.{◌≡◌, ◌+◌, ◌<◌, ◌≤◌, ◌≤ℤ◌, ℕ, ℤ, List, ◌∷◌, [], IfOk, IfNone, IfSome, OnErr, MatchBool, length, slice_get, Some};
ghost use Rattle.itv_base.specs.Outside.{FaultCounted};
ghost use Rattle.itv_base.specs.declared.names.EventId.{EventId};
ghost use Rattle.event_graph.specs.Network.{IsNet};
ghost use Rattle.event_graph.specs.Proof.{Bound, ProofGoal, ProofLine, Split, count_causes};
ghost use Rattle.event_graph.specs.Cases.{first_of, open_cases, siblings};
ghost use Rattle.branch.specs.Step.Cases.{IsFree, IsSearchCase, IsSplittable, work_left};
ghost use Rattle.branch.specs.Step.Searched.{EndsAs, IsAtCase, IsBelowCase, IsNext, Keeps, LeavesFor, SearchSteps, StepsShort};
ghost use Rattle.branch.specs.Step.Standing.{HasUpper, StandsBelow};

use crate::levels::{enter_choice, find_path, step_back};
use diff_bounds::{Bounds, Fit};
use event_graph::{Choice, Decisions, Network, Scribe, ScribeFailed};
use itv_base::EventId;

/// A search: the bounds, the choices of the case at hand, how many cases are closed, and how many may be.
#[derive(Drop)]
pub struct Search {
    pub bounds: Bounds,
    pub cases: Decisions,
    pub leaves: u64,
    pub budget: u64,
}

/// How a search reaches its next case.
#[derive(Clone, Copy)]
pub enum NextCase {
    /// The bounds stand on it.
    Entered,
    /// There is none.
    AllClosed,
    /// There is one, and the budget is used up.
    Stopped,
}

/// Splits the case at hand on a constraint, and enters the first case that is then open.
pub fn split_case<S: Scribe>(
    net: &Network,
    search: &mut Search,
    number: u32,
    scribe: &mut S,
) -> Result<NextCase, ScribeFailed>
    requires net { IsNet net.now }
    requires case { IsAtCase net.now search.old }
    requires free { IsFree net.now search.old.cases.chosen number }
    ensures same { Keeps net.now search.old search.new }
    ensures ends { IfOk result (EndsAs net.now search.new) }
    ensures lines { IfOk result (λ entry. (lines : List ProofLine) × S.Grew scribe.old (Split number ∷ lines) scribe.new
        × ((goal : ProofGoal) → SearchSteps net.now goal (open_cases net.now (first_of number search.old.cases.chosen))
        search.old.leaves search.new entry lines)) }
    ensures cut { OnErr result ((lines : List ProofLine) × S.WasCut scribe.old (Split number ∷ lines) scribe.new
        × ((goal : ProofGoal) → StepsShort net.now goal (open_cases net.now (first_of number search.old.cases.chosen))
        search.old.leaves search.new lines)) }
    ensures within { OnErr result (search.new.leaves ≤ search.new.budget) }
    ensures rose { OnErr result (FaultCounted (S.faults scribe.old) (S.faults scribe.new)) }
    ensures work { IfOk result (λ entry. entry ≡ NextCase.Entered
        → work_left net.now search.new.budget search.new.leaves search.new.cases.chosen
        < work_left net.now search.old.budget search.old.leaves search.old.cases.chosen) }
{
    scribe.split(number)?;
    search.cases.push(Choice {
        constraint: number,
        cause: 0,
    });
    enter_case(net, search, scribe)
}

/// Closes the case at hand by a path to an event, which the bounds give, and enters the next case.
pub fn close_case<S: Scribe>(
    net: &Network,
    search: &mut Search,
    to: EventId,
    scribe: &mut S,
) -> Result<NextCase, ScribeFailed>
    requires case { IsAtCase net.now search.old }
    requires source { (from : EventId) × (search.old.bounds.source ≡ Some from) }
    requires value { (value : ℤ) × HasUpper search.old.bounds to value }
    requires to { to.0 < net.now.events }
    ensures same { Keeps net.now search.old search.new }
    ensures ends { IfOk result (EndsAs net.now search.new) }
    ensures lines { IfOk result (λ entry. (lines : List ProofLine) × S.Grew scribe.old lines scribe.new
        × ((from : EventId) (value best : ℤ) → search.old.bounds.source ≡ Some from
        → HasUpper search.old.bounds to value → value ≤ℤ best
        → SearchSteps net.now (Bound from to best) (open_cases net.now search.old.cases.chosen)
        search.old.leaves search.new entry lines)) }
    ensures cut { OnErr result ((lines : List ProofLine) × S.WasCut scribe.old lines scribe.new
        × ((from : EventId) (value best : ℤ) → search.old.bounds.source ≡ Some from
        → HasUpper search.old.bounds to value → value ≤ℤ best
        → StepsShort net.now (Bound from to best) (open_cases net.now search.old.cases.chosen)
        search.old.leaves search.new lines)) }
    ensures within { OnErr result (search.new.leaves ≤ search.new.budget) }
    ensures rose { OnErr result (FaultCounted (S.faults scribe.old) (S.faults scribe.new)) }
    ensures work { IfOk result (λ entry. entry ≡ NextCase.Entered
        → work_left net.now search.new.budget search.new.leaves search.new.cases.chosen
        < work_left net.now search.old.budget search.old.leaves search.old.cases.chosen) }
{
    find_path(net, search, to);
    scribe.cut_path(search.bounds.walk())?;
    step_back(net, search);
    match leave_case(net, search) {
        Some(end) => Ok(end),
        None => enter_case(net, search, scribe),
    }
}

// Enters the case at hand. The bounds do not have its latest choice yet. If that choice gives a loop, the loop closes the case, and
// the next case is entered.
fn enter_case<S: Scribe>(
    net: &Network,
    search: &mut Search,
    scribe: &mut S,
) -> Result<NextCase, ScribeFailed>
    requires below { IsBelowCase net.now search.old }
    requires some { 0 < length search.old.cases.chosen }
    ensures same { Keeps net.now search.old search.new }
    ensures ends { IfOk result (EndsAs net.now search.new) }
    ensures lines { IfOk result (λ entry. (lines : List ProofLine) × S.Grew scribe.old lines scribe.new
        × ((goal : ProofGoal) → SearchSteps net.now goal (open_cases net.now search.old.cases.chosen)
        search.old.leaves search.new entry lines)) }
    ensures cut { OnErr result ((lines : List ProofLine) × S.WasCut scribe.old lines scribe.new
        × ((goal : ProofGoal) → StepsShort net.now goal (open_cases net.now search.old.cases.chosen)
        search.old.leaves search.new lines)) }
    ensures within { OnErr result (search.new.leaves ≤ search.new.budget) }
    ensures rose { OnErr result (FaultCounted (S.faults scribe.old) (S.faults scribe.new)) }
    ensures work { IfOk result (λ entry. entry ≡ NextCase.Entered
        → work_left net.now search.new.budget search.new.leaves search.new.cases.chosen
        ≤ work_left net.now search.old.budget search.old.leaves search.old.cases.chosen) }
{
    while let Some(choice) = search.cases.top() {
        if enter_choice(net, search, choice) == Fit::Fits {
            return Ok(NextCase::Entered);
        }
        scribe.cut_loop(search.bounds.walk())?;
        match leave_case(net, search) {
            Some(end) => return Ok(end),
            None => {}
        }
    }
    unreachable!()
}

// Counts a closed case, and continues to the next open case if there is one and the budget allows it. Otherwise returns how the
// search ends.
fn leave_case(net: &Network, search: &mut Search) -> Option<NextCase>
    requires below { IsBelowCase net.now search.old }
    ensures same { Keeps net.now search.old search.new }
    ensures count { search.new.leaves ≡ search.old.leaves + 1 }
    ensures next { LeavesFor net.now search.old search.new result }
    ensures work { IfNone result (work_left net.now search.new.budget search.new.leaves search.new.cases.chosen
        < work_left net.now search.old.budget search.old.leaves search.old.cases.chosen) }
{
    search.leaves += 1;
    if !next_case(net, search) {
        return Some(NextCase::AllClosed);
    }
    if search.leaves == search.budget {
        return Some(NextCase::Stopped);
    }
    None
}

// Continues from a closed case to the next open one. Returns whether there is one.
fn next_case(net: &Network, search: &mut Search) -> bool
    requires below { IsSearchCase net.now search.old.cases.chosen }
    requires stands { StandsBelow net.now search.old.cases.chosen search.old.bounds }
    ensures same { Keeps net.now search.old search.new }
    ensures leaves { search.new.leaves ≡ search.old.leaves }
    ensures next { MatchBool result (IsNext net.now search.old search.new)
        (siblings net.now search.old.cases.chosen ≡ []) }
{
    while let Some(choice) = search.cases.pop() {
        let count = causes(net, choice.constraint);
        let cause = choice.cause + 1;
        if cause < count {
            search.cases.push(Choice { cause, ..choice });
            return true;
        }
        step_back(net, search);
    }
    false
}

// The number of causes of a constraint that can be split.
fn causes(net: &Network, constraint: u32) -> u32
    requires { IsSplittable (slice_get net.now.constraints constraint) }
    ensures { result ≡ count_causes (slice_get net.now.constraints constraint) }
{
    net.cause_count(constraint)
}
