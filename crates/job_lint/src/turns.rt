//! How many turns the searches by clauses may take.

ghost use Rattle.std.specs.Prelude.{◌≤◌};
ghost use Rattle.itv_base.specs.declared.limits.TheConstants.{MAX_BUDGET};

use extremes::{RunTurns, turns_of};

/// The turns of the searches of a network, for a budget of cases: at most a thousand for each case in a search, and at most four times as many in all.
pub fn run_turns(budget: u64) -> RunTurns
    requires { budget ≤ MAX_BUDGET }
{
    RunTurns::of(turns_of(budget))
}
