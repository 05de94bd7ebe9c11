//! Laws of chains, and of the constraints that a proof names. Each is the contract of a function that does nothing.

ghost use Rattle.chains.specs.Laws.{ChainSums, ClosedSetRises, NamedBound, NamedContradict, OnlyIsOf, OnlyIsWider};

/// The weights of a chain sum to the separation of its ends.
pub fn chain_sums()
    ensures law { ChainSums }
{}

/// If the times satisfy the network, they still satisfy it with one picosecond more for each event of a closed set: no edge that the times
/// meet with equality leads into the set from outside.
pub fn closed_set_rises()
    ensures law { ClosedSetRises }
{}

/// The constraints that a proof names contradict each other by themselves, if the proof shows that no times satisfy.
pub fn named_contradict()
    ensures law { NamedContradict }
{}

/// The constraints that the proof of a bound names keep the separation within the bound by themselves.
pub fn named_bound()
    ensures law { NamedBound }
{}

/// Times satisfy the network of a set's constraints if and only if these constraints of the whole network hold.
pub fn only_is_of()
    ensures law { OnlyIsOf }
{}

/// Satisfying times satisfy the network of each set's constraints.
pub fn only_is_wider()
    ensures law { OnlyIsWider }
{}
