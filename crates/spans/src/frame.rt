//! One network for all values of an interval.

ghost use Rattle.std.specs.Prelude.{◌≡◌, ◌<◌, ◌≤◌, ℤ, All, IfOk, IfSome, Some, length, option_map, slice_get};
ghost use Rattle.itv_base.specs.declared.limits.TheConstants.{MAX_ROWS};
ghost use Rattle.itv_base.specs.declared.names.EventId.{EventId as Event};
ghost use Rattle.drawn_networks.specs.Drawn.{IsRowOf};
ghost use Rattle.event_graph.specs.Network.{Constraint};
ghost use Rattle.moves.specs.Step.{HasEventsOf, bare_drawn, lent};
ghost use Rattle.spans.specs.Step.{AreEventCounts, FramesCauses, FramesNet, FramesRows, IsFrameOf, IsInside, IsInterval};

use crate::framed_range::{FrameKind, apart, framed_kind, framed_range};
use crate::interval::Interval;
use drawn_networks::{DrawnNetwork, Row};
use drawn_numbers::DrawnNumber;
use event_graph::{Cause, Network};
use itv_base::{NoMemory, RowKind};
use moves::{any_draws, cause_of, origins_of, part_of_target, push_with, read_drawn, target_of};
use std::alloc::Global;

/// A network with its rows that is a cover or a core of all values of an interval.
#[derive(Drop)]
pub struct SpanFrame {
    pub net: Network,
    pub rows: Vec<Row>,
}

/// The frame of an interval of values of some numbers, where each event counts from so many values; or `None` if it would have a range that can't be drawn.
pub fn frame_of(
    alloc: Global,
    drawn: &DrawnNetwork,
    numbers: &[&DrawnNumber],
    counts: &[i64],
    interval: Interval,
    kind: FrameKind,
) -> Result<Option<SpanFrame>, NoMemory>
    requires counts { AreEventCounts drawn.now.net counts.now }
    requires interval { IsInterval interval }
    ensures frames { IfOk result (λ frame. IfSome frame (λ frame. (value : ℤ) → IsInside interval value
        → IsFrameOf kind counts.now drawn.now (lent numbers.now) (bare_drawn frame.net frame.rows.items) value)) }
    ensures rows { IfOk result (λ frame. IfSome frame (λ frame. All (IsRowOf frame.net) frame.rows.items)) }
    ensures few { IfOk result (λ frame. IfSome frame (λ frame. length frame.rows.items ≤ MAX_ROWS)) }
{
    let Some(rows) = framed_rows(alloc, drawn, numbers, counts, interval, kind)? else {
        return Ok(None);
    };
    let Some(net) = framed_net(alloc, drawn, numbers, counts, interval, kind)? else {
        return Ok(None);
    };
    Ok(Some(SpanFrame { net, rows }))
}

// The network of a frame.
fn framed_net(
    alloc: Global,
    drawn: &DrawnNetwork,
    numbers: &[&DrawnNumber],
    counts: &[i64],
    interval: Interval,
    kind: FrameKind,
) -> Result<Option<Network>, NoMemory>
    requires counts { AreEventCounts drawn.now.net counts.now }
    requires interval { IsInterval interval }
    ensures frames { IfOk result (λ frame. IfSome frame (λ frame. (value : ℤ) → IsInside interval value
        → FramesNet kind counts.now drawn.now (lent numbers.now) frame value)) }
    ensures events { IfOk result (λ frame. IfSome frame (λ frame. frame.events ≡ drawn.now.net.events)) }
{
    read_drawn(drawn);
    let net = drawn.network();
    let mut frame = Network::new(alloc, net.events())?;
    for constraint in 0..net.len() {
        match framed_causes(alloc, drawn, numbers, counts, interval, kind, constraint)? {
            None => return Ok(None),
            Some(causes) => push_with(alloc, drawn, constraint, &causes, &mut frame)?,
        }
    }
    Ok(Some(frame))
}

// The causes of a constraint of a frame.
fn framed_causes(
    alloc: Global,
    drawn: &DrawnNetwork,
    numbers: &[&DrawnNumber],
    counts: &[i64],
    interval: Interval,
    kind: FrameKind,
    constraint: u32,
) -> Result<Option<Vec<Cause>>, NoMemory>
    requires there { constraint < length drawn.now.net.constraints }
    requires counts { AreEventCounts drawn.now.net counts.now }
    requires interval { IsInterval interval }
    ensures frames { IfOk result (λ causes. IfSome causes (λ causes. (target : Event)
        → option_map (λ (c : Constraint). c.target) (slice_get drawn.now.net.constraints constraint) ≡ Some target
        → (value : ℤ) → IsInside interval value → FramesCauses kind counts.now drawn.now (lent numbers.now) constraint target causes.items value)) }
    ensures events { IfOk result (λ causes. IfSome causes (λ causes. HasEventsOf drawn.now.net constraint causes.items)) }
{
    read_drawn(drawn);
    let target = target_of(drawn, constraint);
    let part = part_of_target(drawn, constraint);
    let origins = origins_of(drawn, constraint);
    let mut causes = Vec::new(alloc);
    for k in 0..origins.len() {
        let cause = cause_of(drawn, constraint, k as u32);
        let apart = apart(counts, cause.event, target);
        match framed_range(
            cause.range,
            any_draws(numbers, part, origins[k]),
            apart,
            interval,
            kind,
        ) {
            None => return Ok(None),
            Some(range) => causes.push(Cause {
                event: cause.event,
                range,
            })?,
        }
    }
    Ok(Some(causes))
}

// The rows of a frame.
fn framed_rows(
    alloc: Global,
    drawn: &DrawnNetwork,
    numbers: &[&DrawnNumber],
    counts: &[i64],
    interval: Interval,
    frame: FrameKind,
) -> Result<Option<Vec<Row>>, NoMemory>
    requires counts { AreEventCounts drawn.now.net counts.now }
    requires interval { IsInterval interval }
    ensures frames { IfOk result (λ rows. IfSome rows (λ rows. (value : ℤ) → IsInside interval value
        → FramesRows frame counts.now drawn.now (lent numbers.now) rows.items value)) }
    ensures within { IfOk result (λ rows. IfSome rows (λ rows. All (IsRowOf drawn.now.net) rows.items)) }
    ensures few { IfOk result (λ rows. IfSome rows (λ rows. length rows.items ≤ MAX_ROWS)) }
{
    let drawn_rows = drawn.rows();
    let mut rows = Vec::new(alloc);
    for k in 0..drawn_rows.len() {
        let row = drawn_rows.get(k);
        let is_drawn = any_draws(numbers, drawn.name(row.from).part, row.origin);
        let apart = apart(counts, row.from, row.to);
        match framed_kind(row.kind, is_drawn, apart, interval, frame) {
            None => return Ok(None),
            Some(kind) => rows.push(Row {
                kind,
                from: row.from,
                to: row.to,
                origin: row.origin,
            })?,
        }
    }
    Ok(Some(rows))
}
