//! Ranges of delays.

ghost use Rattle.std.specs.Prelude.{◌≡◌, ◌↔◌, ◌&&◌, ℤ, IsTrue, IsErrOf, IfOk, OnOk, not, false};
ghost use Rattle.itv_base.specs.Range.{Allows, IsEnd, IsRange, is_wide, has_wide, is_reversed};

use crate::limits::END_LIMIT;
use std::marker::Model;
use thiserror::Error;

/// A range of whole numbers of picoseconds. Each end is a number within [`END_LIMIT`] in absolute value, or open. The low end
/// isn't above the high end.
#[derive(Clone, Copy)]
pub struct Range {
    low: Option<i64>,
    high: Option<i64>,
}

impl Model for Range {
    ghost use Rattle.itv_base.specs.Range.{Ends, IsRange};

    ghost Value = { Ends };

    ghost view = { λ r. record { low = r.low; high = r.high } };

    ghost invariant = { λ r. IsRange (record { low = r.low; high = r.high }) };

    ghost inverse = { λ ends. record { low = ends.low; high = ends.high } };
}

/// Why two ends make no range.
#[derive(Clone, Copy, Debug, Error)]
pub enum RangeFault {
    /// A finite end is beyond [`END_LIMIT`] in absolute value.
    #[error("an end is too wide")]
    TooWide,
    /// The low end is above the high end.
    #[error("the low end is above the high end")]
    EmptyRange,
}

// Whether an end is finite and beyond the limit.
fn is_beyond(end: Option<i64>) -> bool
    ensures test { result ≡ is_wide end }
    ensures within { result ≡ false → IsEnd end }
{
    match end {
        None => false,
        Some(value) => value < -END_LIMIT || END_LIMIT < value,
    }
}

impl Range {
    /// The range of two ends in picoseconds; an end that is `None` is open. If an end is too wide, the fault is
    /// `TooWide`, even where the ends are the wrong way round.
    pub fn new(low: Option<i64>, high: Option<i64>) -> Result<Range, RangeFault>
        ensures ok { IfOk result (λ r. r ≡ record { low = low; high = high }) }
        ensures range { OnOk result (IsRange (record { low = low; high = high })) }
        ensures wide { IsErrOf result RangeFault.TooWide
            ↔ IsTrue (has_wide (record { low = low; high = high })) }
        ensures empty { IsErrOf result RangeFault.EmptyRange
            ↔ IsTrue (not (has_wide (record { low = low; high = high }))
            && is_reversed (record { low = low; high = high })) }
    {
        if is_beyond(low) || is_beyond(high) {
            return Err(RangeFault::TooWide);
        }
        match (low, high) {
            (Some(least), Some(most)) if most < least => Err(RangeFault::EmptyRange),
            _ => Ok(Range { low, high }),
        }
    }

    /// The low end in picoseconds, or `None` if it is open.
    pub fn low(&self) -> Option<i64>
        ensures end { result ≡ self.now.low }
        ensures within { IsEnd result }
    {
        self.low
    }

    /// The high end in picoseconds, or `None` if it is open.
    pub fn high(&self) -> Option<i64>
        ensures end { result ≡ self.now.high }
        ensures within { IsEnd result }
    {
        self.high
    }

    /// Whether a number of picoseconds lies in the range.
    pub fn has(&self, value: i64) -> bool
        ensures allows { IsTrue result ↔ Allows self.now value }
    {
        self.low.is_none_or(|low| low <= value) && self.high.is_none_or(|high| value <= high)
    }
}
