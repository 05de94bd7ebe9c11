//! Laws of sessions. Each is the contract of a function that does nothing.

ghost use Rattle.whatif.specs.Laws.{SettledBoundsAgree};

/// Two bounds of one pair have one answer if both are right for one network and both are settled. So a bound that was
/// kept is the bound that a search from scratch settles.
pub fn settled_bounds_agree()
    ensures law { SettledBoundsAgree }
{}
