//! The lines of rules and rows.

ghost use Rattle.std.specs.Prelude.{◌≡◌, ◌++◌, ◌+◌, ◌∷◌, ◌<◌, All, IfOk, OnOk, [], drop, length, take};
ghost use Rattle.event_graph.specs.Network.{linear};
ghost use Rattle.drawn_networks.specs.Drawn.{IsRowOf};
ghost use Rattle.job_measure.specs.Lines.{is_linear_kind, is_demand, lines_of, range_of, line_of_row, lines_of_rows, rule_line, rule_lines};
ghost use Rattle.job_measure.specs.Step.{IsRunWithin, IsTolerance};

use crate::headed::{Headed, headed_in, is_known, under};
use crate::heading::row_heading;
use crate::rule::RuleCopy;
use crate::tally::{RunTally, tally_of};
use drawn_networks::{DrawnNetwork, Row};
use itv_base::{NoMemory, Range, RowKind, RuleKind};
use measured_times::MeasuredRun;
use std::alloc::Global;
use std::marker::Model;

/// A line: what it is about, and what the runs show.
#[derive(Drop)]
pub struct RunLine {
    pub heading: Vec<u8>,
    /// Whether separations are printed.
    pub has_separations: bool,
    /// Whether it is judged. A question is not.
    pub is_judged: bool,
    pub tally: RunTally,
}

impl Model for RunLine {
    ghost use Rattle.job_measure.specs.Lines.{RunLine};

    ghost Value = { RunLine };

    ghost view = { λ l. record { heading = l.heading.items; has_separations = l.has_separations; is_judged = l.is_judged; tally = l.tally } };
}

/// The lines of all rules, and then of all rows.
pub fn lines_of(
    alloc: Global,
    drawn: &DrawnNetwork,
    within: u64,
    runs: &[MeasuredRun],
) -> Result<Vec<RunLine>, NoMemory>
    requires within { IsTolerance within }
    requires runs { All IsRunWithin runs.now }
    ensures lines { IfOk result (λ lines. lines.items ≡ lines_of drawn.now within runs.now) }
{
    let mut lines: Vec<RunLine> = Vec::new(alloc);
    let all = headed_in(alloc, drawn)?;
    add_rules(&mut lines, alloc, within, runs, &all)?;
    add_rows(&mut lines, alloc, drawn, within, runs)?;
    Ok(lines)
}

// Adds a line for each heading.
fn add_rules(
    lines: &mut Vec<RunLine>,
    alloc: Global,
    within: u64,
    runs: &[MeasuredRun],
    all: &[Headed],
) -> Result<(), NoMemory>
    requires within { IsTolerance within }
    requires runs { All IsRunWithin runs.now }
    ensures { OnOk result (lines.new.items ≡ lines.old.items ++ rule_lines within runs.now all.now [] all.now) }
{
    for k in 0..all.len() {
        add_rule(lines, alloc, within, runs, all, k)?;
    }
    Ok(())
}

// Adds the line of the constraint at a place, if it is the first with its heading.
fn add_rule(
    lines: &mut Vec<RunLine>,
    alloc: Global,
    within: u64,
    runs: &[MeasuredRun],
    all: &[Headed],
    k: usize,
) -> Result<(), NoMemory>
    requires within { IsTolerance within }
    requires runs { All IsRunWithin runs.now }
    requires there { k < length all.now }
    ensures { OnOk result (lines.new.items ++ rule_lines within runs.now all.now (take (k + 1) all.now) (drop (k + 1) all.now)
        ≡ lines.old.items ++ rule_lines within runs.now all.now (take k all.now) (drop k all.now)) }
{
    let one = &all[k];
    if is_known(one, &all[..k]) {
        return Ok(());
    }
    lines.push(rule_line(alloc, within, runs, all, one)?)?;
    Ok(())
}

fn rule_line(
    alloc: Global,
    within: u64,
    runs: &[MeasuredRun],
    all: &[Headed],
    one: &Headed,
) -> Result<RunLine, NoMemory>
    requires within { IsTolerance within }
    requires runs { All IsRunWithin runs.now }
    ensures { IfOk result (λ line. line ≡ rule_line within runs.now all.now one.now) }
{
    let rules = under(alloc, &one.heading, all)?;
    Ok(RunLine {
        heading: Vec::from_slice(alloc, one.heading.as_slice())?,
        has_separations: one.rule.kind == RuleKind::Lin,
        is_judged: true,
        tally: tally_of(within, &rules, runs),
    })
}

// Adds a line for each row.
fn add_rows(
    lines: &mut Vec<RunLine>,
    alloc: Global,
    drawn: &DrawnNetwork,
    within: u64,
    runs: &[MeasuredRun],
) -> Result<(), NoMemory>
    requires within { IsTolerance within }
    requires runs { All IsRunWithin runs.now }
    ensures { OnOk result (lines.new.items ≡ lines.old.items ++ lines_of_rows drawn.now within runs.now 0 drawn.now.rows) }
{
    let rows = drawn.rows().as_slice();
    for k in 0..rows.len() {
        lines.push(line_of_row(alloc, drawn, within, runs, k as u64, &rows[k])?)?;
    }
    Ok(())
}

fn line_of_row(
    alloc: Global,
    drawn: &DrawnNetwork,
    within: u64,
    runs: &[MeasuredRun],
    number: u64,
    row: &Row,
) -> Result<RunLine, NoMemory>
    requires within { IsTolerance within }
    requires runs { All IsRunWithin runs.now }
    requires row { IsRowOf drawn.now.net row.now }
    ensures { IfOk result (λ line. line ≡ line_of_row drawn.now within runs.now number row.now) }
{
    let heading = row_heading(alloc, drawn, number, row)?;
    let rules = row_rules(alloc, row)?;
    Ok(RunLine {
        heading,
        has_separations: true,
        is_judged: is_demand(row.kind),
        tally: tally_of(within, &rules, runs),
    })
}

// The constraint of a row, alone.
fn row_rules(alloc: Global, row: &Row) -> Result<Vec<RuleCopy>, NoMemory>
    ensures { IfOk result (λ rules. rules.items ≡ linear row.now.from row.now.to (range_of row.now.kind) ∷ []) }
{
    let range = range_of(row.kind);
    let mut rules: Vec<RuleCopy> = Vec::new(alloc);
    rules.push(RuleCopy::linear(alloc, row.from, row.to, range)?)?;
    Ok(rules)
}

fn is_demand(kind: RowKind) -> bool
    ensures { result ≡ is_demand kind }
{
    match kind {
        RowKind::Ask => false,
        RowKind::Req(_) => true,
    }
}

// The range of a row; of a question a range with open ends.
fn range_of(kind: RowKind) -> Range
    ensures { result ≡ range_of kind }
{
    match kind {
        RowKind::Ask => Range::new(None, None).unwrap(),
        RowKind::Req(range) => range,
    }
}
