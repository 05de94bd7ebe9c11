//! What is known before the first put.

ghost use Rattle.std.specs.Prelude.{ℕ, All, IfOk};
ghost use Rattle.explanations.specs.Answers.{AreFound, HasRowTimes};
ghost use Rattle.job_brief.specs.Step.{IsOutline};

use crate::order::in_order;
use crate::ranks::ranks_of;
use crate::row_counts::{RowCounts, counts_of};
use crate::run_place::RunPlace;
use crate::runs::runs_of;
use drawn_networks::DrawnNetwork;
use explanations::{Finding, RowFound};
use itv_base::NoMemory;
use job_why::ending_of;
use slack_report::EndWord;
use std::alloc::Global;

/// What is known of all rows before the first put: where each run of rows stands, how many rows there are, and the word at the end.
#[derive(Drop)]
pub struct Outline {
    pub places: Vec<RunPlace>,
    pub counts: RowCounts,
    pub end: EndWord,
}

/// The outline of what is found. All the memory that the text needs for its rows is taken here.
pub fn outline_of(
    alloc: Global,
    drawn: &DrawnNetwork,
    finding: &Finding,
    found: &[RowFound],
) -> Result<Outline, NoMemory>
    requires found { (budget : ℕ) × AreFound drawn.now budget finding.now found.now }
    requires times { All HasRowTimes found.now }
    ensures outline { IfOk result (λ outline. IsOutline drawn.now finding.now found.now outline) }
{
    let rows = ranks_of(alloc, drawn, found)?;
    let runs = runs_of(alloc, drawn, found, &rows)?;
    let places = in_order(alloc, &runs)?;
    Ok(Outline {
        places,
        counts: counts_of(&rows),
        end: ending_of(drawn, finding, found),
    })
}
