//! Times that break a requirement.

ghost use Rattle.std.specs.Prelude.{◌≡◌, All, Some, IfOk};
ghost use Rattle.itv_base.specs.Range.{IsEnd};
ghost use Rattle.event_graph.specs.Bounds.{IsRay};
ghost use Rattle.event_graph.specs.Network.{IsNet};
ghost use Rattle.drawn_networks.specs.Drawn.{IsRowOf};
ghost use Rattle.requirements.specs.Verdicts.{verdict_of};
ghost use Rattle.job_settle.specs.Answers.{IsEndless, IsViolation, IsPastOf, bound_of};
ghost use Rattle.job_settle.specs.Step.{ArePast, IsBeyond, IsFoundBound, IsNearTime};

use crate::bound::{SettledBound, both_of};
use crate::pair::{source, target};
use drawn_networks::Row;
use event_graph::{Network, move_all};
use itv_base::{NoMemory, Range, RowKind};
use requirements::{Verdict, judge, raise_past};
use slack_report::Which;
use std::alloc::Global;

/// Times that break the requirement of a row, if its bounds show that some do; otherwise no times.
pub fn past_of(
    alloc: Global,
    row: &Row,
    net: &Network,
    least: &SettledBound,
    greatest: &SettledBound,
) -> Result<Vec<i64>, NoMemory>
    requires row { IsRowOf net.now row.now }
    requires least { IsFoundBound net.now Which.Min row.now least.now }
    requires greatest { IsFoundBound net.now Which.Max row.now greatest.now }
    ensures past { IfOk result (λ past. IsPastOf net.now row.now row.now.kind (record { greatest = greatest.now; least = least.now; past = past })) }
{
    match row.kind {
        RowKind::Ask => Ok(Vec::new(alloc)),
        RowKind::Req(range) => past_range(alloc, range, row, net, least, greatest),
    }
}

// The same for the range of a requirement.
fn past_range(
    alloc: Global,
    range: Range,
    row: &Row,
    net: &Network,
    least: &SettledBound,
    greatest: &SettledBound,
) -> Result<Vec<i64>, NoMemory>
    requires row { IsRowOf net.now row.now }
    requires least { IsFoundBound net.now Which.Min row.now least.now }
    requires greatest { IsFoundBound net.now Which.Max row.now greatest.now }
    ensures past { IfOk result (λ past. IsViolation net.now row.now range (verdict_of range (bound_of least.now) (bound_of greatest.now)) past.items) }
{
    let both = both_of(least, greatest);
    match judge(range, &both) {
        Verdict::FailHigh => {
            let limit = both.broken_high(range);
            past_limit(alloc, Which::Max, limit, row, net, greatest)
        }
        Verdict::FailLow => {
            let limit = both.broken_low(range);
            past_limit(alloc, Which::Min, limit, row, net, least)
        }
        Verdict::Pass | Verdict::Undecided => Ok(Vec::new(alloc)),
    }
}

// Times past a limit on the separation of the searched pair of a bound; the bound shows that some separation exceeds the limit.
fn past_limit(
    alloc: Global,
    which: Which,
    limit: i64,
    row: &Row,
    net: &Network,
    found: &SettledBound,
) -> Result<Vec<i64>, NoMemory>
    requires limit { IsEnd (Some limit) }
    requires row { IsRowOf net.now row.now }
    requires bound { IsFoundBound net.now which row.now found.now }
    requires beyond { IsBeyond which found.now limit }
    ensures past { IfOk result (λ past. ArePast net.now which row.now limit past.items) }
{
    net.is_whole();
    match found {
        SettledBound::Closed(_, times, _) => copy_of(alloc, times),
        SettledBound::Unbounded(times, ray) => {
            let mut past = copy_of(alloc, times)?;
            raise(&mut past, ray, which, limit, row, net);
            Ok(past)
        }
        SettledBound::Open => unreachable!(),
    }
}

// A copy of times.
fn copy_of(alloc: Global, times: &[i64]) -> Result<Vec<i64>, NoMemory>
    ensures same { IfOk result (λ copy. copy.items ≡ times.now) }
{
    let mut copy = Vec::new(alloc);
    copy.extend_from_slice(times)?;
    Ok(copy)
}

// Raises the set of events until the separation of the searched pair is past a limit, and then moves all times so that the from-event is at 0.
fn raise(times: &mut [i64], set: &[bool], which: Which, limit: i64, row: &Row, net: &Network)
    requires net { IsNet net.now }
    requires limit { IsEnd (Some limit) }
    requires row { IsRowOf net.now row.now }
    requires endless { IsEndless net.now which row.now times.old set.now }
    requires nearby { All IsNearTime times.old }
    ensures past { ArePast net.now which row.now limit times.new }
{
    raise_past(times, set, source(which, row), target(which, row), limit);
    move_all(times, row.from);
}
