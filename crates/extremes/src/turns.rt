//! How many turns searches by clauses may take.

ghost use Rattle.std.specs.Prelude.{◌≡◌, ◌*◌, ◌≤◌};
ghost use Rattle.itv_base.specs.declared.limits.TheConstants.{MAX_BUDGET};

use settle::RunTurns;

// Turns for each case of the budget, as in job settle.
const CASE_TURNS: u64 = 1000;

/// How many turns each search by clauses may take, for a budget of cases.
pub fn turns_of(budget: u64) -> u64
    requires { budget ≤ MAX_BUDGET }
    ensures turns { result ≡ 1000 * budget }
{
    CASE_TURNS * budget
}

/// The turns of the searches of a network, for a budget of cases: at most a thousand for each case in a search, and at most four times as many in all.
pub fn run_turns(budget: u64) -> RunTurns
    requires { budget ≤ MAX_BUDGET }
{
    RunTurns::of(turns_of(budget))
}
