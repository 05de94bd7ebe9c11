//! A walk over the lines of a report.

ghost use Rattle.std.specs.Prelude.{◌≡◌, ◌↔◌, ◌<◌, ◌≤◌, [], IfErr, IfSome, IsNone, IsTrue, length};
ghost use Rattle.branch.specs.Work.{IsMadeFor};
ghost use Rattle.right_report.specs.Right.ReportState.{at_heading, at_last};
ghost use Rattle.drawn_networks.specs.Drawn.{Drawn};
ghost use Rattle.job_check.specs.Step.Stages.{Fits, IsLineStage, at_of};
ghost use Rattle.job_check.specs.Step.Groups.{IsGroup, behind_lines};
ghost use Rattle.job_check.specs.Step.CheckWalks.{CheckSteps, CheckWalks};

use crate::judge::judge;
use crate::proof_group::{ProofGroup, step_group};
use crate::stage::Stage;
use branch::Work;
use cert_checker::Checker;
use drawn_networks::DrawnNetwork;
use slack_report::Items;

/// Walks over all lines of a report of a drawn network. Returns the number, from 0, of the first wrong line, if there
/// is one.
pub fn walk(
    drawn: &DrawnNetwork,
    checker: &mut Checker,
    work: &mut Work,
    items: &Items,
) -> Result<(), u64>
    requires room { checker.old.room ≡ length drawn.now.net.constraints }
    requires made { IsMadeFor drawn.now.net work.old }
    ensures walks { CheckWalks drawn.now items.now at_heading result }
    ensures within { IfErr result (λ number. number ≤ length items.now) }
{
    let mut stage = Stage::Heading;
    let mut start = 0;
    while start < items.len() {
        match step(drawn, checker, work, items, start, &stage) {
            Ok(next) => (stage, start) = next,
            Err(number) => return Err(number),
        }
    }
    if is_done(&stage) { Ok(()) } else { Err(start) }
}

// A step from a stage at a line. Returns the next stage with the number of the next line, or the number of the first
// wrong line.
fn step<'a>(
    drawn: &DrawnNetwork,
    checker: &mut Checker,
    work: &mut Work,
    items: &'a Items,
    start: u64,
    stage: &Stage<'a>,
) -> Result<(Stage<'a>, u64), u64>
    requires start { start < length items.now }
    requires fits { Fits drawn.now stage.now }
    requires room { checker.old.room ≡ length drawn.now.net.constraints }
    requires made { IsMadeFor drawn.now.net work.old }
    ensures steps { CheckSteps drawn.now items.now (at_of drawn.now stage.now) start result }
    ensures room { checker.new.room ≡ checker.old.room }
    ensures made { IsMadeFor drawn.now.net work.new }
{
    match group_of(drawn, stage) {
        Some(group) => step_group(drawn, checker, work, items, start, &group),
        None => step_line(drawn, items, start, stage),
    }
}

// The finding or the bound that proof lines at a stage stand before, if proof lines may stand there.
fn group_of(drawn: &DrawnNetwork, stage: &Stage<'_>) -> Option<ProofGroup>
    requires fits { Fits drawn.now stage.now }
    ensures group { IfSome result (λ group. IsGroup drawn.now group
        × (behind_lines drawn.now group [] ≡ at_of drawn.now stage.now)) }
    ensures line { IsNone result → IsLineStage drawn.now stage.now }
{
    match stage {
        Stage::Event(number) if *number == drawn.network().events() => Some(ProofGroup::Finding(
            *number,
        )),
        Stage::Bound { current, coming } => Some(ProofGroup::Bound {
            current: *current,
            coming: *coming,
        }),
        _ => None,
    }
}

// A step over one line.
fn step_line<'a>(
    drawn: &DrawnNetwork,
    items: &'a Items,
    start: u64,
    stage: &Stage<'a>,
) -> Result<(Stage<'a>, u64), u64>
    requires start { start < length items.now }
    requires fits { Fits drawn.now stage.now }
    requires line { IsLineStage drawn.now stage.now }
    ensures steps { CheckSteps drawn.now items.now (at_of drawn.now stage.now) start result }
{
    let (item, _) = items.get(start);
    match judge(drawn, stage, &item) {
        Some(next) => Ok((next, start + 1)),
        None => Err(start),
    }
}

fn is_done(stage: &Stage<'_>) -> bool
    ensures done { (drawn : Drawn) → (IsTrue result ↔ (at_of drawn stage.now ≡ at_last)) }
{
    match stage {
        Stage::Done => true,
        _ => false,
    }
}
