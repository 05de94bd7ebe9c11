//! Measured runs.

ghost use Rattle.std.specs.Prelude.{◌≡◌};
ghost use Rattle.measured_times.specs.Runs.{is_time_within};

use itv_base::Listing;

/// The most picoseconds of a measured time, in absolute value.
pub const MAX_TIME: i64 = 1_000_000_000_000_000_000;

const _: () = prove!(MAX_TIME == 1_000_000_000 * 1_000_000_000);

/// The times of the events of a network in one run, in picoseconds and in the order of the events; `None` is an event that was not seen.
pub type MeasuredRun = Listing<Option<i64>>;

/// Runs in the order of their lines.
pub type MeasuredRuns = Listing<MeasuredRun>;

/// Whether a time is within its limit. An event that was not seen has no time that could be beyond it.
pub(crate) fn is_time_within(time: Option<i64>) -> bool
    ensures { result ≡ is_time_within time }
{
    match time {
        None => true,
        Some(time) => -MAX_TIME <= time && time <= MAX_TIME,
    }
}
