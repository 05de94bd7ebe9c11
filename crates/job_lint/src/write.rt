//! Writing the text of the job.

ghost use Rattle.std.specs.Prelude.{◌≡◌, ◌≤◌, ℕ, List, IfOk, IsOk, OnErr};
ghost use Rattle.itv_base.specs.Outside.{CutShort, grown};
ghost use Rattle.itv_base.specs.declared.limits.TheConstants.{MAX_BUDGET};
ghost use Rattle.compose.specs.Compose.{composed_on};
ghost use Rattle.job_base.specs.JobWrote.{Answered, JobWrote};
ghost use Rattle.design_plan.specs.Plan.{sheets_on};
ghost use Rattle.job_lint.specs.Lint.{AnswersLint, answer_by};
ghost use Rattle.job_lint.specs.Step.Put.{AreLintLines};

use crate::designing::design_of;
use crate::finding::find_all;
use crate::line::Line;
use crate::lines::lines_of;
use crate::looking::look_at_periods;
use crate::meant::is_clean;
use crate::put_text::put_text;
use compose::Design;
use design_plan::Plan;
use drawn_networks::DrawnNetwork;
use itv_base::{NoMemory, PutFailed, Sink};
use job_base::{Answer, Unanswered};
use line_words::LineBuffer;
use lint::printed_warnings;
use std::alloc::Global;

// Room for most lines. A longer line is put piece by piece.
const LINE_ROOM: u32 = 256;

/// Writes what in a design may say something else than was meant: a line for each warning of the drawing, for each rule and row that is in no cycle, for
/// each end of a range that no times attain, and for each row whose answer rests on the order of a lane or was left open. In place of the lines of ends and
/// rows one or two lines may say that the rules contradict each other, or that the search for times was left open. A line about an edge that is meant is
/// left out and counted. Each search
/// closes at most `budget` cases, and takes at most a thousand turns for each. All is found before the first put.
pub fn write_lint<K: Sink>(
    alloc: Global,
    plan: &Plan,
    drawn: &DrawnNetwork,
    budget: u64,
    sink: &mut K,
) -> Result<Answer, Unanswered>
    requires design { IsOk (composed_on plan.now.netlist (sheets_on plan.now.sheets plan.now.netlist.parts)) }
    requires least { 1 ≤ budget }
    requires most { budget ≤ MAX_BUDGET }
    ensures works { JobWrote (AnswersLint plan.now drawn.now budget) (Answered (AnswersLint plan.now drawn.now budget)) (K.state sink.old) (K.state sink.new) result }
{
    let design = design_of(alloc, plan)?;
    let written = write_design(alloc, plan, &design, drawn, budget, sink);
    drop(design);
    written
}

// Writes the lines of a design.
fn write_design<K: Sink>(
    alloc: Global,
    plan: &Plan,
    design: &Design<'_>,
    drawn: &DrawnNetwork,
    budget: u64,
    sink: &mut K,
) -> Result<Answer, Unanswered>
    requires design { composed_on plan.now.netlist (sheets_on plan.now.sheets plan.now.netlist.parts) ≡ Ok design.now }
    requires least { 1 ≤ budget }
    requires most { budget ≤ MAX_BUDGET }
    ensures works { JobWrote (AnswersLint plan.now drawn.now budget) (Answered (AnswersLint plan.now drawn.now budget)) (K.state sink.old) (K.state sink.new) result }
{
    let mut buffer = LineBuffer::new(alloc, LINE_ROOM)?;
    let lines = find_lines(alloc, plan, design, drawn, budget)?;
    Ok(put_found(plan, design, drawn, &lines, &mut buffer, sink)?)
}

// All lines, with those that are meant.
fn find_lines(
    alloc: Global,
    plan: &Plan,
    design: &Design<'_>,
    drawn: &DrawnNetwork,
    budget: u64,
) -> Result<Vec<Line>, NoMemory>
    requires design { composed_on plan.now.netlist (sheets_on plan.now.sheets plan.now.netlist.parts) ≡ Ok design.now }
    requires least { 1 ≤ budget }
    requires most { budget ≤ MAX_BUDGET }
    ensures lines { IfOk result (λ lines. AreLintLines plan.now design.now drawn.now budget lines.items) }
{
    let given = printed_warnings(alloc, plan, design)?;
    let warnings = look_at_periods(alloc, &given, drawn, design, budget)?;
    let found = find_all(alloc, drawn, budget)?;
    lines_of(alloc, design, drawn, &warnings, &found)
}

// Puts the whole text. The answer says whether there is no line to print.
fn put_found<K: Sink>(
    plan: &Plan,
    design: &Design<'_>,
    drawn: &DrawnNetwork,
    lines: &[Line],
    buffer: &mut LineBuffer,
    sink: &mut K,
) -> Result<Answer, PutFailed>
    ensures answers { (budget : ℕ) → AreLintLines plan.now design.now drawn.now budget lines.now
        → IfOk result (λ answer. (text : List ℕ) × AnswersLint plan.now drawn.now budget answer text
        × (K.state sink.new ≡ grown (K.state sink.old) text)) }
    ensures begins { (budget : ℕ) → AreLintLines plan.now design.now drawn.now budget lines.now
        → OnErr result ((text : List ℕ) × Answered (AnswersLint plan.now drawn.now budget) text
        × CutShort (K.state sink.old) (K.state sink.new) text) }
{
    let clean = is_clean(plan, design, drawn, lines);
    put_text(plan, design, drawn, lines, clean, buffer, sink)?;
    Ok(answer_by(clean))
}

// What the job answers: all is clean, or there is something to warn of.
fn answer_by(clean: bool) -> Answer
    ensures { result ≡ answer_by clean }
{
    if clean {
        Answer::AllPass
    } else {
        Answer::SomeFail
    }
}
