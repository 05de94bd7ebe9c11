//! The pair of events whose greatest separation is searched for a bound of a row; for the least bound it is the reversed pair.

ghost use Rattle.std.specs.Prelude.{◌≡◌};
ghost use Rattle.job_settle.specs.Step.{source, target};

use drawn_networks::Row;
use itv_base::EventId;
use slack_report::Which;

/// The event that the searched pair starts from.
pub fn source(which: Which, row: &Row) -> EventId
    ensures event { result ≡ source which row.now }
{
    match which {
        Which::Max => row.from,
        Which::Min => row.to,
    }
}

/// The event that the searched pair leads to.
pub fn target(which: Which, row: &Row) -> EventId
    ensures event { result ≡ target which row.now }
{
    match which {
        Which::Max => row.to,
        Which::Min => row.from,
    }
}
