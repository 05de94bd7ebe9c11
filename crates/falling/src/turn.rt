//! The line of a turn: the first line of the constraint of least number that can lower a value.

ghost use Rattle.std.specs.Prelude.{◌≡◌, ◌⊎◌, ◌+ℤ◌, ◌≤ℤ◌, All, IsSome, Some, IfSome, IfNone, length, option_map};
ghost use Rattle.itv_base.specs.Range.{IsEnd};
ghost use Rattle.itv_base.specs.declared.names.RuleKind.TheVariants as RuleKind;
ghost use Rattle.itv_base.specs.declared.names.Side.TheVariants as Side;
ghost use Rattle.event_graph.specs.Network.{IsNet, cause_at};
ghost use Rattle.falling.specs.declared.line.Reason.TheVariants.{ByEdge, ByLatest};
ghost use Rattle.falling.specs.Step.Agenda.{AreOthersTried};
ghost use Rattle.falling.specs.Derivation.{IsLineAllowed, IsFixedPoint};
ghost use Rattle.falling.specs.Step.Turns.{HasOpenHigh, HoldsSide, IsConstraintTried, IsHighOf, IsOfKind, IsFirstOf, IsFirstOnSide, IsLatestValue, IsSideTried, IsTried, IsTurnLine, MayLook};
ghost use Rattle.falling.specs.Cap.{IsNearValue};

use crate::line::{FallLine, Reason};
use crate::pending_flags::PendingFlags;
use event_graph::Network;
use itv_base::{EdgeName, RuleKind, Side};

/// The first line of the constraint of least number that allows a line. A constraint without a flag allows none. A constraint that is looked at
/// without result loses its flag.
pub fn next_line(net: &Network, values: &[i64], pending: &mut PendingFlags) -> Option<FallLine>
    requires count { length values.now ≡ net.now.events }
    requires near { All IsNearValue values.now }
    requires tried { AreOthersTried net.now values.now pending.old }
    ensures line { IfSome result (IsLineAllowed net.now values.now) }
    ensures turn { IfSome result (IsTurnLine net.now values.now) }
    ensures none { IfNone result (IsFixedPoint net.now values.now) }
    ensures flags { length pending.new ≡ length pending.old }
    ensures tried { AreOthersTried net.now values.now pending.new }
{
    prove!(net.events() as usize == values.len());
    'looks: while let Some(number) = pending.first() {
        if net.len() <= number {
            return None;
        }
        if let Some(line) = constraint_line(net, number, values) {
            return Some(line);
        }
        pending.remove(number);
    }
    None
}

// The first line of a constraint, in the order of the turn rule.
fn constraint_line(net: &Network, number: u32, values: &[i64]) -> Option<FallLine>
    requires look { MayLook net.now values.now number }
    ensures line { IfSome result (IsLineAllowed net.now values.now) }
    ensures first { IfSome result (IsFirstOf net.now values.now number) }
    ensures none { IfNone result (IsConstraintTried net.now values.now number) }
{
    match net.kind(number) {
        RuleKind::Lin => linear_line(net, number, values),
        RuleKind::Late => late_line(net, number, values),
        RuleKind::Early => early_line(net, number, values),
    }
}

// The line of a linear constraint: the upper side comes first.
fn linear_line(net: &Network, number: u32, values: &[i64]) -> Option<FallLine>
    requires look { MayLook net.now values.now number }
    requires kind { IsOfKind net.now number RuleKind.Lin }
    ensures line { IfSome result (IsLineAllowed net.now values.now) }
    ensures first { IfSome result (IsFirstOf net.now values.now number) }
    ensures none { IfNone result (IsConstraintTried net.now values.now number) }
{
    if let Some(line) = side_line(net, number, Side::Upper, values) {
        return Some(line);
    }
    side_line(net, number, Side::Lower, values)
}

// The line of an earliest constraint: the lower side of a single cause comes first.
fn early_line(net: &Network, number: u32, values: &[i64]) -> Option<FallLine>
    requires look { MayLook net.now values.now number }
    requires kind { IsOfKind net.now number RuleKind.Early }
    ensures line { IfSome result (IsLineAllowed net.now values.now) }
    ensures first { IfSome result (IsFirstOf net.now values.now number) }
    ensures none { IfNone result (IsConstraintTried net.now values.now number) }
{
    if let Some(line) = single_line(net, number, values) {
        return Some(line);
    }
    side_line(net, number, Side::Upper, values)
}

// The line by the lower side of an earliest constraint with a single cause, which is always met. With more causes there is no such line.
fn single_line(net: &Network, number: u32, values: &[i64]) -> Option<FallLine>
    requires look { MayLook net.now values.now number }
    requires kind { IsOfKind net.now number RuleKind.Early }
    ensures line { IfSome result (IsLineAllowed net.now values.now) }
    ensures first { IfSome result (IsFirstOnSide net.now values.now number Side.Lower) }
    ensures none { IfNone result (IsSideTried net.now values.now number Side.Lower) }
{
    if net.cause_count(number) != 1 {
        return None;
    }
    side_line(net, number, Side::Lower, values)
}

// The line of a latest constraint: the lower sides come first. The upper side of a single cause lowers nothing
// that the latest line does not.
fn late_line(net: &Network, number: u32, values: &[i64]) -> Option<FallLine>
    requires look { MayLook net.now values.now number }
    requires kind { IsOfKind net.now number RuleKind.Late }
    ensures line { IfSome result (IsLineAllowed net.now values.now) }
    ensures first { IfSome result (IsFirstOf net.now values.now number) }
    ensures none { IfNone result (IsConstraintTried net.now values.now number) }
{
    if let Some(line) = side_line(net, number, Side::Lower, values) {
        return Some(line);
    }
    latest_line(net, number, values)
}

// The first line by an edge of a constraint on a side.
fn side_line(net: &Network, number: u32, side: Side, values: &[i64]) -> Option<FallLine>
    requires look { MayLook net.now values.now number }
    requires always { HoldsSide net.now number side }
    ensures line { IfSome result (IsLineAllowed net.now values.now) }
    ensures first { IfSome result (IsFirstOnSide net.now values.now number side) }
    ensures none { IfNone result (IsSideTried net.now values.now number side) }
{
    let count = net.cause_count(number);
    for cause in 0..count.max(1) {
        let name = EdgeName {
            constraint: number,
            cause,
            side,
        };
        if let Some(line) = edge_line(net, name, values) {
            return Some(line);
        }
    }
    None
}

// The line by an edge on a side that is always met, if it is there and lowers its to-event.
fn edge_line(net: &Network, name: EdgeName, values: &[i64]) -> Option<FallLine>
    requires count { length values.now ≡ net.now.events }
    requires near { All IsNearValue values.now }
    requires always { HoldsSide net.now name.constraint name.side }
    ensures line { IfSome result (IsLineAllowed net.now values.now) }
    ensures reason { IfSome result (λ line. line.reason ≡ ByEdge name) }
    ensures none { IfNone result (IsTried net.now values.now (ByEdge name)) }
{
    let edge = net.edge(name)?;
    let value = moved(values[edge.from.0 as usize], edge.weight);
    if value < values[edge.to.0 as usize] {
        Some(FallLine {
            event: edge.to,
            value,
            reason: Reason::ByEdge(name),
        })
    } else {
        None
    }
}

// The line by a latest constraint, if no high end is open and it lowers the target.
fn latest_line(net: &Network, number: u32, values: &[i64]) -> Option<FallLine>
    requires look { MayLook net.now values.now number }
    requires kind { IsOfKind net.now number RuleKind.Late }
    ensures line { IfSome result (IsLineAllowed net.now values.now) }
    ensures reason { IfSome result (λ line. line.reason ≡ ByLatest number) }
    ensures none { IfNone result (IsTried net.now values.now (ByLatest number)) }
{
    let due = latest_value(net, number, values)?;
    let target = net.target(number);
    if due.value < values[target.0 as usize] {
        Some(FallLine {
            event: target,
            value: due.value,
            reason: Reason::ByLatest(number),
        })
    } else {
        None
    }
}

// The greatest value, in picoseconds, that the causes of a latest constraint give, if no high end is open.
pub fn latest_value(net: &Network, number: u32, values: &[i64]) -> Option<Due>
    requires look { MayLook net.now values.now number }
    requires kind { IsOfKind net.now number RuleKind.Late }
    ensures value { IfSome result (λ d. IsLatestValue net.now values.now number d.value) }
    ensures none { IfNone result (HasOpenHigh net.now number) }
{
    let count = net.cause_count(number);
    let mut due = high_of(net, number, 0, values)?;
    for cause in 1..count {
        let other = high_of(net, number, cause, values)?;
        due = due.or_greater(other);
    }
    Some(due)
}

// The value that a cause gives a target with its high end, if the high end is not open.
fn high_of(net: &Network, number: u32, cause: u32, values: &[i64]) -> Option<Due>
    requires net { IsNet net.now }
    requires cause { IsSome (cause_at net.now number cause) }
    requires count { length values.now ≡ net.now.events }
    requires near { All IsNearValue values.now }
    ensures { IsHighOf net.now values.now number cause (option_map (λ d. d.value) result) }
{
    let cause = net.cause(number, cause);
    let high = cause.range.high()?;
    Some(Due {
        value: moved(values[cause.event.0 as usize], high),
    })
}

// A value in picoseconds that is due.
#[derive(Clone, Copy)]
pub struct Due {
    pub value: i64,
}

impl Due {
    // The greater of two values.
    fn or_greater(self, other: Due) -> Due
        ensures first { self.value ≤ℤ result.value }
        ensures second { other.value ≤ℤ result.value }
        ensures either { (result.value ≡ self.value) ⊎ (result.value ≡ other.value) }
    {
        if self.value < other.value {
            other
        } else {
            self
        }
    }
}

// A value plus an end.
pub fn moved(value: i64, end: i64) -> i64
    requires value { IsNearValue value }
    requires end { IsEnd (Some end) }
    ensures { result ≡ value +ℤ end }
{
    value + end
}
