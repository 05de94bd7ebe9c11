//! Runs of rows that say the same in one cycle after another.

ghost use Rattle.std.specs.Prelude.{◌≡◌, ◌<◌, ◌≤◌, All, IfOk, OnOk, length, map, set};
ghost use Rattle.job_brief.specs.Rows.{runs_of};
ghost use Rattle.job_brief.specs.Step.{fold_at, folded_at, goes_on_at, numbered_rows, place_of, run_place};
ghost use Rattle.job_brief.specs.declared.run_place.RunPlace.{RunPlace as PlaceSeen};

use crate::row_rank::RowRank;
use crate::run_place::RunPlace;
use crate::same::{FoundRow, goes_on};
use drawn_networks::DrawnNetwork;
use explanations::RowFound;
use itv_base::NoMemory;
use job_base::row_at;
use std::alloc::Global;

/// The runs of all rows of which something is found, in the order of their first rows. Each row goes to the first run with whose last row it goes on, or
/// begins one. All the memory that this needs is taken first.
pub fn runs_of(
    alloc: Global,
    drawn: &DrawnNetwork,
    found: &[RowFound],
    rows: &[RowRank],
) -> Result<Vec<RunPlace>, NoMemory>
    requires count { length found.now ≤ length drawn.now.rows }
    requires rows { rows.now ≡ map place_of (numbered_rows drawn.now found.now) }
    ensures runs { IfOk result (λ runs. runs.items ≡ map run_place (runs_of drawn.now (numbered_rows drawn.now found.now))) }
{
    let mut runs = Vec::with_capacity(alloc, rows.len())?;
    for at in 0..rows.len() {
        fold_in(drawn, found, rows[at], &mut runs)?;
    }
    Ok(runs)
}

// Puts a row to the runs.
fn fold_in(
    drawn: &DrawnNetwork,
    found: &[RowFound],
    row: RowRank,
    runs: &mut Vec<RunPlace>,
) -> Result<(), NoMemory>
    requires count { length found.now ≤ length drawn.now.rows }
    requires row { row.number < length found.now }
    requires runs { All (λ (run : PlaceSeen). run.last < length found.now) runs.old.items }
    ensures folded { OnOk result (runs.new.items ≡ fold_at drawn.now found.now row runs.old.items) }
    ensures within { OnOk result (All (λ (run : PlaceSeen). run.last < length found.now) runs.new.items) }
{
    let at = run_with(drawn, found, row, runs);
    put_at(at, row, runs)
}

// The number of the first run with whose last row a row goes on, or how many runs there are.
fn run_with(drawn: &DrawnNetwork, found: &[RowFound], row: RowRank, runs: &[RunPlace]) -> usize
    requires count { length found.now ≤ length drawn.now.rows }
    requires row { row.number < length found.now }
    requires runs { All (λ (run : PlaceSeen). run.last < length found.now) runs.now }
    ensures within { result ≤ length runs.now }
    ensures run { folded_at result row runs.now ≡ fold_at drawn.now found.now row runs.now }
{
    for at in 0..runs.len() {
        if rows_go_on(drawn, found, runs[at].last, row.number) {
            return at;
        }
    }
    runs.len()
}

// Whether the row of one number goes on with the row of another number.
fn rows_go_on(drawn: &DrawnNetwork, found: &[RowFound], number: u32, next: u32) -> bool
    requires count { length found.now ≤ length drawn.now.rows }
    requires row { number < length found.now }
    requires next { next < length found.now }
    ensures test { result ≡ goes_on_at drawn.now found.now number next }
{
    let seen = FoundRow {
        row: row_at(drawn, number),
        found: &found[number as usize],
    };
    let following = FoundRow {
        row: row_at(drawn, next),
        found: &found[next as usize],
    };
    goes_on(drawn, seen, following)
}

// Puts a row to the run of a number, or after all runs into a new one.
fn put_at(at: usize, row: RowRank, runs: &mut Vec<RunPlace>) -> Result<(), NoMemory>
    requires at { at ≤ length runs.old.items }
    ensures put { OnOk result (runs.new.items ≡ folded_at at row runs.old.items) }
{
    if at < runs.len() {
        let run = run_at(at, row, runs);
        runs[at] = run;
    } else {
        runs.push(RunPlace {
            first: row,
            last: row.number,
        })?;
    }
    Ok(())
}

// The run of a number with one more row.
fn run_at(at: usize, row: RowRank, runs: &[RunPlace]) -> RunPlace
    requires at { at < length runs.now }
    ensures run { set runs.now at result ≡ folded_at at row runs.now }
{
    RunPlace {
        first: runs[at].first,
        last: row.number,
    }
}
