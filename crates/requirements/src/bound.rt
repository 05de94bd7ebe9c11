//! Bounds of the separation of a pair of events.

ghost use Rattle.std.specs.Prelude.{◌≡◌, neg_ℤ, IfSome, option_map};
ghost use Rattle.event_graph.specs.Times.{IsTime};

use event_graph::negated_time;

/// What is known of the greatest or the least separation of a pair of events, among the times that satisfy a network. All numbers
/// are in picoseconds.
#[derive(Clone, Copy)]
pub enum Bound {
    /// This separation is attained, and no satisfying separation is beyond it.
    Closed(i64),
    /// Satisfying separations exceed every number.
    Unbounded,
    /// The search ended before the bound was settled.
    Within {
        /// The root bound, or `None` if the always-edges leave the pair unbounded.
        limit: Option<i64>,
        /// The best separation that was attained, or `None` if no separation was.
        attained: Option<i64>,
    },
}

/// The two bounds of a pair.
#[derive(Clone, Copy)]
pub struct BothBounds {
    pub least: Bound,
    pub greatest: Bound,
}

/// How far the bounds of a pair are inside the ends of a range, in picoseconds. A number below 0 says by how much an end is missed.
/// A slack is `None` if its end is open or its bound is not closed.
#[derive(Clone, Copy, PartialEq, Eq)]
pub struct Slack {
    pub low: Option<i64>,
    pub high: Option<i64>,
}

impl Bound {
    ghost use Rattle.requirements.specs.Bounds.{HasTimes, reversed};

    /// The bound of the reversed pair on the other side, with the numbers negated: minus the greatest separation of a pair is the
    /// least separation of the reversed pair. Numbers are below 2^61 in absolute value.
    pub fn reversed(self) -> Bound
        requires { HasTimes self }
        ensures bound { result ≡ reversed self }
        ensures times { HasTimes result }
    {
        match self {
            Bound::Closed(value) => Bound::Closed(negated_time(value)),
            Bound::Unbounded => Bound::Unbounded,
            Bound::Within { limit, attained } => Bound::Within {
                limit: negated_known(limit),
                attained: negated_known(attained),
            },
        }
    }
}

/// Minus a number of picoseconds, or none where it is not known. It is below 2^61 in absolute value.
pub fn negated_known(number: Option<i64>) -> Option<i64>
    requires { IfSome number IsTime }
    ensures number { result ≡ option_map neg_ℤ number }
    ensures within { IfSome result IsTime }
{
    match number {
        None => None,
        Some(value) => Some(negated_time(value)),
    }
}
