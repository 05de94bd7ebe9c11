//! A gap among values.

ghost use Rattle.std.specs.Prelude.{◌≡◌, ◌*◌, ◌⊎◌, ◌<◌, pos, ◌+ℤ◌, ◌≤ℤ◌, length};
ghost use Rattle.event_graph.specs.Limits.{weight_limit};
ghost use Rattle.falling.specs.Cap.{cap_limit, widest_end};
ghost use Rattle.falling.specs.DerivationEnds.{AreLimits};
ghost use Rattle.falling.specs.Rays.{IsGapAt};
ghost use Rattle.falling.specs.Step.Rays.{IsClimbed, IsStepTo, above};

use crate::limits::Limits;
use event_graph::Network;

/// A number of picoseconds. Each value is at most the level or beyond it.
#[derive(Clone, Copy)]
pub struct Level {
    pub value: i64,
}

/// A level with a gap above it: each value is at most the level, or beyond it by more than the widest end. Passes over the values reach the
/// level from 0, in steps of at most the widest end, each to a value.
pub fn gap_level(net: &Network, values: &[i64], limits: Limits) -> Level
    requires limits { AreLimits net.now limits }
    requires count { length values.now ≡ net.now.events }
    ensures gap { IsGapAt limits.width result.value values.now }
    ensures low { pos 0 ≤ℤ result.value }
    ensures high { result.value ≤ℤ pos (net.now.events * widest_end net.now) }
{
    let mut level = Level { value: 0 };
    'passes: loop {
        let next = climb(net, values, level, limits);
        if next.value == level.value {
            return level;
        }
        level = next;
    }
}

// The level after a pass over the values. Each value that is beyond the level so far by at most the widest end becomes the level.
fn climb(net: &Network, values: &[i64], level: Level, limits: Limits) -> Level
    requires limits { AreLimits net.now limits }
    requires count { length values.now ≡ net.now.events }
    requires climbed { IsClimbed net.now values.now level.value }
    ensures climbed { IsClimbed net.now values.now result.value }
    ensures fewer { (result.value ≡ level.value)
        ⊎ (above result.value values.now < above level.value values.now) }
    ensures gap { result.value ≡ level.value → IsGapAt limits.width level.value values.now }
{
    let mut best = level;
    for value in values {
        best = step(best, widened(best, limits), Level { value: *value });
    }
    best
}

// The level that is the widest end above another.
fn widened(level: Level, limits: Limits) -> Level
    requires low { pos 0 ≤ℤ level.value }
    requires high { level.value ≤ℤ pos cap_limit }
    requires width_low { pos 0 ≤ℤ limits.width }
    requires width { limits.width ≤ℤ pos weight_limit }
    ensures { result.value ≡ level.value +ℤ limits.width }
{
    Level {
        value: level.value + limits.width,
    }
}

// The other level if it is beyond the first and at most `most`, or else the first.
fn step(level: Level, most: Level, other: Level) -> Level
    ensures { IsStepTo level.value most.value other.value result.value }
{
    if other.value <= level.value {
        return level;
    }
    if most.value < other.value {
        return level;
    }
    other
}
