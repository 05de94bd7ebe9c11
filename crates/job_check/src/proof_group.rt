//! Proof lines, with the finding or the bound that stands after them.

ghost use Rattle.std.specs.Prelude.{◌≡◌, ◌↔◌, IsTrue, ◌+◌, ◌<◌, ◌≤◌, ◌^◌, ◌-◌, neg_ℤ, pos, List, [], Option, false, length, drop};
ghost use Rattle.std.specs.Int.{int_min};
ghost use Rattle.branch.specs.Work.{IsMadeFor};
ghost use Rattle.cert_checker.specs.Checking.{goal_view};
ghost use Rattle.event_graph.specs.Proof.{ProofGoal, ProofLine};
ghost use Rattle.slack_report.specs.Items.{item_view};
ghost use Rattle.right_report.specs.Right.ReportState.{at_bound, at_event, which_of};
ghost use Rattle.drawn_networks.specs.Drawn.{Drawn};
ghost use Rattle.right_report.specs.Shown.{goal_of};
ghost use Rattle.right_report.specs.Wrong.{goal_by};
ghost use Rattle.job_check.specs.Step.Groups.{ChecksFor, ChecksLines, IsGroup, IsWholeFor, ReadsAlike, StandsForGoal, behind_lines, found_behind, proof_front};
ghost use Rattle.job_check.specs.Step.Stages.{Decides, IsNextBound, IsCurrentRow, is_proof, next_in, current_in};
ghost use Rattle.job_check.specs.Step.CheckWalks.{CheckSteps};

use crate::bounds::{proves_bound, proves_finding};
use crate::stage::{CurrentRow, NextBound, Stage, behind_bound, behind_finding};
use branch::Work;
use cert_checker::{Checker, Goal};
use drawn_networks::{DrawnNetwork, Row};
use event_graph::Network;
use requirements::{Bound, Consistency};
use slack_report::{Item, Items, Which};

/// What some proof lines stand before.
#[derive(Clone, Copy)]
pub enum ProofGroup {
    /// The finding, after so many events.
    Finding(u32),
    /// A bound of a row.
    Bound {
        current: CurrentRow,
        coming: NextBound,
    },
}

/// A step over the proof lines from a line on, and over the finding or the bound after them. Returns the next stage
/// with the number of the next line, or the number of the first wrong line.
pub fn step_group(
    drawn: &DrawnNetwork,
    checker: &mut Checker,
    work: &mut Work,
    items: &Items,
    start: u64,
    group: &ProofGroup,
) -> Result<(Stage<'static>, u64), u64>
    requires start { start ≤ length items.now }
    requires group { IsGroup drawn.now group.now }
    requires room { checker.old.room ≡ length drawn.now.net.constraints }
    requires made { IsMadeFor drawn.now.net work.old }
    ensures steps { CheckSteps drawn.now items.now (behind_lines drawn.now group.now []) start result }
    ensures room { checker.new.room ≡ checker.old.room }
    ensures made { IsMadeFor drawn.now.net work.new }
{
    let net = drawn.network();
    let end = proof_end(items, start);
    if end == items.len() {
        return Err(end);
    }
    let (item, _) = items.get(end);
    let whole = match check_for(net, checker, items, start, goal_by(net, group, &item)) {
        Ok(whole) => whole,
        Err(number) => return Err(number),
    };
    match judge_behind(drawn, work, group, whole, &item) {
        Some(stage) => Ok((stage, end + 1)),
        None => Err(end),
    }
}

// The number of the first line from `start` on that is no proof line, or the number of all lines if there is none.
fn proof_end(items: &Items, start: u64) -> u64
    requires start { start ≤ length items.now }
    ensures end { result ≡ start + length (proof_front (drop start items.now)) }
    ensures within { result ≤ length items.now }
{
    for number in start..items.len() {
        let (item, _) = items.get(number);
        if !is_proof(&item) {
            return number;
        }
    }
    items.len()
}

fn is_proof(item: &Item<'_>) -> bool
    ensures proof { result ≡ is_proof (item_view item.now) }
{
    match item {
        Item::Proof(_) => true,
        _ => false,
    }
}

// What the proof lines before a line are to show, if anything.
fn goal_by(net: &Network, group: &ProofGroup, item: &Item<'_>) -> Option<Goal>
    ensures goal { (drawn : Drawn) → StandsForGoal net.now (goal_by (behind_lines drawn group.now []) (item_view item.now)) result }
{
    match (group, item) {
        (ProofGroup::Finding(_), Item::Finding(Consistency::Inconsistent)) => Some(Goal::Nothing),
        (
            ProofGroup::Bound { current, coming },
            Item::Bound {
                bound: Bound::Closed(value),
                ..
            },
        ) => Some(goal_of(net, &current.row, *coming, *value)),
        _ => None,
    }
}

// What the proof lines before a closed bound are to show.
fn goal_of(net: &Network, row: &Row, coming: NextBound, value: i64) -> Goal
    ensures goal { ReadsAlike net.now (goal_of row.now (next_in coming) value) (goal_view result) }
{
    // The network is within its limits, and so are the sums of its paths.
    net.is_whole();
    match coming {
        NextBound::Greatest => Goal::Bound {
            from: row.from,
            to: row.to,
            value,
        },
        NextBound::LeastBy(_) => Goal::Bound {
            from: row.to,
            to: row.from,
            value: minus(value),
        },
    }
}

// Minus a number of picoseconds, or the greatest number of 64 bits if that is less. No sum of a path comes near it.
fn minus(value: i64) -> i64
    ensures value { result ≡ int_min (neg_ℤ value) (pos (2 ^ 63 - 1)) }
{
    match value.checked_neg() {
        Some(negative) => negative,
        None => i64::MAX,
    }
}

// Takes the proof lines from a line on for a goal. If there is none, the lines are ignored.
fn check_for(
    net: &Network,
    checker: &mut Checker,
    items: &Items,
    start: u64,
    goal: Option<Goal>,
) -> Result<bool, u64>
    requires start { start ≤ length items.now }
    requires room { checker.old.room ≡ length net.now.constraints }
    ensures checks { (wanted : Option ProofGoal) → StandsForGoal net.now wanted goal
        → ChecksFor net.now wanted (proof_front (drop start items.now)) start result }
    ensures room { checker.new.room ≡ checker.old.room }
{
    match goal {
        None => Ok(false),
        Some(goal) => check_lines(net, checker, items, start, goal),
    }
}

// Takes the proof lines from a line on. Returns whether they are a whole proof, or the number of the first line that is
// refused.
fn check_lines(
    net: &Network,
    checker: &mut Checker,
    items: &Items,
    start: u64,
    goal: Goal,
) -> Result<bool, u64>
    requires start { start ≤ length items.now }
    requires room { checker.old.room ≡ length net.now.constraints }
    ensures checks { ChecksLines net.now (goal_view goal) (proof_front (drop start items.now)) start result }
    ensures room { checker.new.room ≡ checker.old.room }
{
    checker.begin(net, goal);
    for number in start..items.len() {
        let (item, _) = items.get(number);
        match item {
            Item::Proof(line) => {
                if checker.take(net, &line).is_err() {
                    return Err(number);
                }
            }
            _ => return Ok(checker.is_done()),
        }
    }
    Ok(checker.is_done())
}

// The next stage after proof lines and the line they support, or none if that line is wrong here. `whole` says whether
// the proof is complete.
fn judge_behind(
    drawn: &DrawnNetwork,
    work: &mut Work,
    group: &ProofGroup,
    whole: bool,
    item: &Item<'_>,
) -> Option<Stage<'static>>
    requires made { IsMadeFor drawn.now.net work.old }
    requires group { IsGroup drawn.now group.now }
    requires other { is_proof (item_view item.now) ≡ false }
    ensures decides { (lines : List ProofLine)
        → IsWholeFor drawn.now.net (goal_by (behind_lines drawn.now group.now []) (item_view item.now)) lines whole
        → Decides drawn.now (behind_lines drawn.now group.now lines) (item_view item.now) result }
    ensures made { IsMadeFor drawn.now.net work.new }
{
    match group {
        ProofGroup::Finding(number) => judge_finding(drawn, work, *number, whole, item),
        ProofGroup::Bound { current, coming } => judge_bound(
            drawn, work, current, *coming, whole, item,
        ),
    }
}

fn judge_finding(
    drawn: &DrawnNetwork,
    work: &mut Work,
    number: u32,
    whole: bool,
    item: &Item<'_>,
) -> Option<Stage<'static>>
    requires made { IsMadeFor drawn.now.net work.old }
    requires other { is_proof (item_view item.now) ≡ false }
    ensures decides { (lines : List ProofLine) → IsWholeFor drawn.now.net (goal_by (at_event number []) (item_view item.now)) lines whole
        → Decides drawn.now (found_behind number lines) (item_view item.now) result }
    ensures made { IsMadeFor drawn.now.net work.new }
{
    match item {
        Item::Finding(word) => {
            if proves_finding(drawn.network(), work, *word, whole) {
                return Some(behind_finding(*word));
            }
            None
        }
        _ => None,
    }
}

fn judge_bound(
    drawn: &DrawnNetwork,
    work: &mut Work,
    current: &CurrentRow,
    coming: NextBound,
    whole: bool,
    item: &Item<'_>,
) -> Option<Stage<'static>>
    requires made { IsMadeFor drawn.now.net work.old }
    requires current_row { IsCurrentRow drawn.now current.now }
    requires coming { IsNextBound coming }
    requires other { is_proof (item_view item.now) ≡ false }
    ensures decides { (lines : List ProofLine)
        → IsWholeFor drawn.now.net (goal_by (at_bound (current_in drawn.now current.now) (next_in coming) []) (item_view item.now)) lines whole
        → Decides drawn.now (at_bound (current_in drawn.now current.now) (next_in coming) lines) (item_view item.now) result }
    ensures made { IsMadeFor drawn.now.net work.new }
{
    let found = current.tally.found;
    match item {
        Item::Bound { which, bound }
            if is_which(*which, coming)
                && proves_bound(
                    drawn.network(),
                    work,
                    found,
                    &current.row,
                    coming,
                    *bound,
                    whole,
                ) => { Some(behind_bound(current, coming, *bound)) }
        _ => None,
    }
}

// Whether a bound is the bound of a side.
fn is_which(which: Which, coming: NextBound) -> bool
    ensures which { IsTrue result ↔ (which ≡ which_of (next_in coming)) }
{
    which == coming.which()
}
