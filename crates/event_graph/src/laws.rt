//! Laws of networks and of proofs over them. Each is the contract of a function that does nothing.

ghost use Rattle.event_graph.specs.Trees.{ProofIsTree};
ghost use Rattle.event_graph.specs.Laws.{HoldsByEdges, LeastIsReversedGreatest, NoRootIsInconsistent, ProofBounds, ProofIsWithinChoices, ProofOfNothing, RangeSetAgain, RayIsUnbounded, ReadingLeavesCases, RootBoundEncloses, SatisfyingIsMeetingAlways, SatisfyingMeetsAlways, ShiftKeepsSatisfying, SingleCauseIsLinear, StoppedProofIsBelowChoices};
ghost use Rattle.event_graph.specs.Widening.{WiderKeepsSatisfying};

/// Times satisfy a network if and only if they do so with one number added to all of them.
pub fn shift_keeps_satisfying()
    ensures law { ShiftKeepsSatisfying }
{}

/// Times that satisfy a network satisfy each network whose ends are open or no narrower.
pub fn wider_keeps_satisfying()
    ensures law { WiderKeepsSatisfying }
{}

/// The least separation of a pair is minus the greatest separation of the reversed pair.
pub fn least_is_reversed_greatest()
    ensures law { LeastIsReversedGreatest }
{}

/// A pair with a ray is unbounded.
pub fn ray_is_unbounded()
    ensures law { RayIsUnbounded }
{}

/// A constraint holds if and only if the times meet its always-edges and, for a latest or earliest constraint, some
/// choice: they meet the edge of some cause on the choice side, or that end is open.
pub fn holds_by_edges()
    ensures law { HoldsByEdges }
{}

/// A constraint of one cause holds if and only if the times meet both its edges, whatever its kind.
pub fn single_cause_is_linear()
    ensures law { SingleCauseIsLinear }
{}

/// Satisfying times meet every always-edge.
pub fn satisfying_meets_always()
    ensures law { SatisfyingMeetsAlways }
{}

/// Times satisfy a network whose constraints have a single cause each if and only if they meet its always-edges.
pub fn satisfying_is_meeting_always()
    ensures law { SatisfyingIsMeetingAlways }
{}

/// No satisfying separation exceeds the root bound of the pair, where that is a number.
pub fn root_bound_encloses()
    ensures law { RootBoundEncloses }
{}

/// If no times meet the always-edges, no times satisfy.
pub fn no_root_is_inconsistent()
    ensures law { NoRootIsInconsistent }
{}

/// If there is a proof of a value for a pair, no satisfying separation of the pair exceeds it.
pub fn proof_bounds()
    ensures law { ProofBounds }
{}

/// If there is a proof of `Nothing`, no times satisfy the network.
pub fn proof_of_nothing()
    ensures law { ProofOfNothing }
{}

/// Lines are a proof if and only if they are the lines of a tree that proves its goal.
pub fn proof_is_tree()
    ensures law { ProofIsTree }
{}

/// The cases that accepted lines leave open do not depend on what the lines show.
pub fn reading_leaves_cases()
    ensures law { ReadingLeavesCases }
{}

/// A proof closes at most as many cases as there are cause choices.
pub fn proof_is_within_choices()
    ensures law { ProofIsWithinChoices }
{}

/// A stopped proof closes fewer cases than there are cause choices.
pub fn stopped_proof_is_below_choices()
    ensures law { StoppedProofIsBelowChoices }
{}

/// If a cause gets another range and then its old range again, the network is as before.
pub fn range_set_again()
    ensures law { RangeSetAgain }
{}
