//! What the times of one period say of every number of cycles. The functions do nothing; each law is the contract of one.

ghost use Rattle.longer_runs.specs.Folding.{FoldedIsDrawn};
ghost use Rattle.longer_runs.specs.PeriodLaws.{SteadyBreaks, SteadyIsUnbounded, SteadySatisfies, SteadySeparates};

/// Steady times satisfy the network of every number of cycles.
pub fn steady_satisfies()
    ensures law { SteadySatisfies }
{}

/// In steady times a row has one separation in each cycle of each run.
pub fn steady_separates()
    ensures law { SteadySeparates }
{}

/// A range that steady times break is broken in every cycle of every run.
pub fn steady_breaks()
    ensures law { SteadyBreaks }
{}

/// A pair that is unbounded in the one cycle is unbounded in each cycle of each run.
pub fn steady_is_unbounded()
    ensures law { SteadyIsUnbounded }
{}

/// The one cycle is what the rules draw over one cycle, if the ends of their causes of earlier cycles are moved by periods.
pub fn folded_is_drawn()
    ensures law { FoldedIsDrawn }
{}
