//! The end of a range that a bound breaks.

ghost use Rattle.std.specs.Prelude.{◌≡◌, Some, neg_ℤ};
ghost use Rattle.itv_base.specs.Range.{IsEnd};
ghost use Rattle.requirements.specs.Verdicts.{verdict_of};

use crate::bound::BothBounds;
use crate::verdict::Verdict;
use event_graph::negated_weight;
use itv_base::Range;

impl BothBounds {
    /// The high end of a range that the greatest bound breaks, in picoseconds.
    pub fn broken_high(&self, range: Range) -> i64
        requires word { verdict_of range self.now.least self.now.greatest ≡ Verdict.FailHigh }
        ensures end { range.high ≡ Some result }
        ensures limit { IsEnd (Some result) }
    {
        match range.high() {
            Some(high) => high,
            None => unreachable!(),
        }
    }

    /// Minus the low end of a range that the least bound breaks, in picoseconds. It is an end for the separation of the reversed pair.
    pub fn broken_low(&self, range: Range) -> i64
        requires word { verdict_of range self.now.least self.now.greatest ≡ Verdict.FailLow }
        ensures end { range.low ≡ Some (neg_ℤ result) }
        ensures limit { IsEnd (Some result) }
    {
        match range.low() {
            Some(low) => negated_weight(low),
            None => unreachable!(),
        }
    }
}
