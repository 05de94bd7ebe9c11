//! The ranks of all rows.

ghost use Rattle.std.specs.Prelude.{◌≡◌, ◌≤◌, All, IfOk, length, map};
ghost use Rattle.explanations.specs.Answers.{HasRowTimes};
ghost use Rattle.job_brief.specs.Step.{numbered_rows, place_of};

use crate::judged::judged_of;
use crate::row_rank::{RowRank, place_of};
use drawn_networks::DrawnNetwork;
use explanations::RowFound;
use itv_base::NoMemory;
use job_base::row_at;
use std::alloc::Global;

/// The ranks of all rows of which something is found, in the order of their numbers. All the memory that this needs is taken first.
pub fn ranks_of(
    alloc: Global,
    drawn: &DrawnNetwork,
    found: &[RowFound],
) -> Result<Vec<RowRank>, NoMemory>
    requires count { length found.now ≤ length drawn.now.rows }
    requires times { All HasRowTimes found.now }
    ensures ranks { IfOk result (λ ranks. ranks.items ≡ map place_of (numbered_rows drawn.now found.now)) }
{
    let mut ranks = Vec::with_capacity(alloc, found.len())?;
    for number in 0..found_count(drawn, found) {
        let row = row_at(drawn, number);
        let judged = judged_of(row.kind, &found[number as usize]);
        ranks.push(place_of(number, judged))?;
    }
    Ok(ranks)
}

// Of how many rows something is found.
fn found_count(drawn: &DrawnNetwork, found: &[RowFound]) -> u32
    requires count { length found.now ≤ length drawn.now.rows }
    ensures count { result ≡ length found.now }
{
    // Rows are within the limit of a report.
    let _rows = drawn.rows();
    found.len() as u32
}
