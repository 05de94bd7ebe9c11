//! The extremes of a pair of events.

ghost use Rattle.std.specs.Prelude.{◌≡◌};
ghost use Rattle.job_bounds.specs.Step.Witness.{searched_pair};

use event_graph::Pair;
use slack_report::Which;

/// An extreme of a pair: its greatest or its least separation.
#[derive(Clone, Copy)]
pub struct Extreme {
    pub which: Which,
    pub pair: Pair,
}

/// The pair whose greatest separation gives a bound of a pair: for the greatest bound the pair itself, for the least bound the reversed one.
pub fn searched_pair(which: Which, pair: Pair) -> Pair
    ensures pair { result ≡ searched_pair which pair }
{
    match which {
        Which::Max => pair,
        Which::Min => pair.reversed(),
    }
}
