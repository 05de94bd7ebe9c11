//! What is found of a network.

ghost use Rattle.std.specs.Prelude.{◌≡◌};

use requirements::Consistency;

/// Whether some times satisfy a network, with what shows that none do.
#[derive(Drop)]
pub enum Finding {
    /// Some times satisfy it.
    Consistent,
    /// No times satisfy it. The list has for each constraint whether it is in a set of constraints that contradict each other by themselves.
    Inconsistent(Vec<bool>),
    /// The budget and the turns were spent before it was known.
    Open,
}

impl Finding {
    ghost use Rattle.explanations.specs.Answers.{consistency_of};

    /// The finding alone.
    pub fn consistency(&self) -> Consistency
        ensures word { result ≡ consistency_of self.now }
    {
        match self {
            Finding::Consistent => Consistency::Consistent,
            Finding::Inconsistent(_) => Consistency::Inconsistent,
            Finding::Open => Consistency::Open,
        }
    }
}
