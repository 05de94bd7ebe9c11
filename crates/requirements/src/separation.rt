//! What a search finds of the greatest or the least separation of a pair of events.

ghost use Rattle.std.specs.Prelude.{◌≡◌};

use crate::bound::{Bound, negated_known};
use event_graph::negated_time;

/// What is found of a separation of a pair, in picoseconds, with what shows it: `C` shows a number, and `U` shows that there is none.
#[derive(Drop)]
pub enum Separation<C, U> {
    /// It is this number.
    Closed {
        value: i64,
        shown: C,
    },
    /// There is none: satisfying separations exceed every number.
    Unbounded {
        shown: U,
    },
    /// The search ended before it was known. `limit` is what the always-edges alone allow, or `None` if they leave the pair unbounded. `attained` is the
    /// best separation that was attained, or `None` if none was.
    Open {
        limit: Option<i64>,
        attained: Option<i64>,
    },
}

impl<C, U> Separation<C, U> {
    ghost use Rattle.requirements.specs.Bounds.{HasTimes};
    ghost use Rattle.requirements.specs.Separations.{bound_of, is_open, reversed_found};

    /// The bound alone.
    pub fn bound(&self) -> Bound
        ensures bound { result ≡ bound_of self.now }
    {
        match self {
            Separation::Closed { value, .. } => Bound::Closed(*value),
            Separation::Unbounded { .. } => Bound::Unbounded,
            Separation::Open { limit, attained } => Bound::Within {
                limit: *limit,
                attained: *attained,
            },
        }
    }

    /// Whether it was left open.
    pub fn is_open(&self) -> bool
        ensures open { result ≡ is_open self.now }
    {
        match self {
            Separation::Closed { .. } | Separation::Unbounded { .. } => false,
            Separation::Open { .. } => true,
        }
    }

    /// The separation on the other side of the reversed pair, shown by the same. Its numbers are below 2^61 in absolute value.
    pub fn reversed(self) -> Separation<C, U>
        requires times { HasTimes (bound_of self) }
        ensures found { result ≡ reversed_found self }
        ensures times { HasTimes (bound_of result) }
    {
        match self {
            Separation::Closed { value, shown } => Separation::Closed {
                value: negated_time(value),
                shown,
            },
            Separation::Unbounded { shown } => Separation::Unbounded { shown },
            Separation::Open { limit, attained } => Separation::Open {
                limit: negated_known(limit),
                attained: negated_known(attained),
            },
        }
    }
}
