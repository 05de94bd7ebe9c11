//! Laws of gaps and of derivations. Each is the contract of a function that does nothing.

ghost use Rattle.falling.specs.Laws.{DerivationBounds, EndedIsInconsistent, FaultForbids, GapCanBeSet, GapIsRay, NegationKeepsSatisfying, NegationReversesGreatest, NegationReversesUnbounded, NotEndedIsShort, SeparationWithinCap, SettledCloses, SettledSatisfies, TimesNearSource};

/// A gap greater than the widest end can be made any number that is at least the widest end.
pub fn gap_can_be_set()
    ensures law { GapCanBeSet }
{}

/// Where satisfying times have a separation, some times within the cap have it too, or have a separation of at least the far line.
pub fn separation_within_cap()
    ensures law { SeparationWithinCap }
{}

/// Where times satisfy, some times within the cap are not below minus the far line.
pub fn times_near_source()
    ensures law { TimesNearSource }
{}

/// A value of a derivation that is below the far line is at least every satisfying separation.
pub fn derivation_bounds()
    ensures law { DerivationBounds }
{}

/// A derivation that ends shows that no times satisfy.
pub fn ended_is_inconsistent()
    ensures law { EndedIsInconsistent }
{}

/// Values of a plain network that no line lowers satisfy it.
pub fn settled_satisfies()
    ensures law { SettledSatisfies }
{}

/// Settled values of a derivation that has not ended satisfy, and a value below the far line is the greatest separation from the source.
pub fn settled_closes()
    ensures law { SettledCloses }
{}

/// Events that come later than the others by more than the widest end can be raised without end.
pub fn gap_is_ray()
    ensures law { GapIsRay }
{}

/// A derivation that has not ended has fewer lines than are enough.
pub fn not_ended_is_short()
    ensures law { NotEndedIsShort }
{}

/// Times satisfy a network if and only if the negated times satisfy its negation.
pub fn negation_keeps_satisfying()
    ensures law { NegationKeepsSatisfying }
{}

/// The greatest separation of a pair is the greatest separation of the reversed pair in the negation.
pub fn negation_reverses_greatest()
    ensures law { NegationReversesGreatest }
{}

/// A pair is unbounded if and only if the reversed pair is unbounded in the negation.
pub fn negation_reverses_unbounded()
    ensures law { NegationReversesUnbounded }
{}

/// A line for which a checker reports a fault is not allowed.
pub fn fault_forbids()
    ensures law { FaultForbids }
{}
