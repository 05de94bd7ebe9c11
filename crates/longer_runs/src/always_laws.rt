//! Bounds in each cycle of each run of at least some cycles. The functions do nothing; each law is the contract of one.

ghost use Rattle.longer_runs.specs.Always.{ExtremeStays, SteadyIsAlways};

/// The greatest or the least separation of a row over the cycles of one run is so over all longer runs.
pub fn extreme_stays()
    ensures law { ExtremeStays }
{}

/// If steady times attain it too, it is the greatest or the least separation in each cycle.
pub fn steady_is_always()
    ensures law { SteadyIsAlways }
{}
