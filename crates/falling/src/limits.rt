//! The numbers that a solver starts from and ends at.

ghost use Rattle.std.specs.Prelude.{◌≡◌, ◌<◌, ◌≤◌, max, IsSome, Some, length, slice_get};
ghost use Rattle.itv_base.specs.Range.{IsEnd};
ghost use Rattle.event_graph.specs.declared.cause.Cause.{Cause};
ghost use Rattle.event_graph.specs.Limits.{weight_limit};
ghost use Rattle.event_graph.specs.Network.{Constraint, IsNet, cause_at};
ghost use Rattle.falling.specs.Cap.{end_size, widest_end, widest_of_causes};
ghost use Rattle.falling.specs.DerivationEnds.{AreLimits};

use event_graph::Network;

/// The numbers of a network, in picoseconds. A derivation starts the events other than its source at `cap`. A pair is unbounded from the value
/// `far` on. `lowest` is the least value that does not end a derivation. `width` is the greatest absolute value of a finite end.
#[derive(Clone, Copy)]
pub struct Limits {
    pub cap: i64,
    pub far: i64,
    pub lowest: i64,
    pub width: i64,
}

/// The limits of a network.
pub fn limits_of(net: &Network) -> Limits
    ensures { AreLimits net.now result }
{
    let events = net.events() as i64;
    let width = widest(net) as i64;
    let far = events * (width + 1);
    Limits {
        cap: 2 * far,
        far,
        lowest: -far,
        width,
    }
}

// The greatest absolute value of a finite end, 0 where no end is finite.
fn widest(net: &Network) -> u64
    requires net { IsNet net.now }
    ensures width { result ≡ widest_end net.now }
    ensures most { result ≤ weight_limit }
{
    let mut width = 0;
    for number in 0..net.len() {
        width = constraint_width(net, number).max(width);
    }
    width
}

// The greatest absolute value of the ends of a constraint.
fn constraint_width(net: &Network, number: u32) -> u64
    requires net { IsNet net.now }
    requires number { number < length net.now.constraints }
    ensures width { (k : Constraint) → slice_get net.now.constraints number ≡ Some k
        → result ≡ widest_of_causes k.causes }
    ensures most { result ≤ weight_limit }
{
    let count = net.cause_count(number);
    let mut width = 0;
    for cause in 0..count.max(1) {
        width = cause_width(net, number, cause).max(width);
    }
    width
}

// The greater absolute value of the ends of a cause.
fn cause_width(net: &Network, number: u32, cause: u32) -> u64
    requires { IsSome (cause_at net.now number cause) }
    ensures width { (c : Cause) → cause_at net.now number cause ≡ Some c
        → result ≡ max (end_size c.range.low) (end_size c.range.high) }
    ensures most { result ≤ weight_limit }
{
    let range = net.cause(number, cause).range;
    size_of(range.low()).max(size_of(range.high()))
}

// The absolute value of an end, 0 where it is open.
fn size_of(end: Option<i64>) -> u64
    requires { IsEnd end }
    ensures size { result ≡ end_size end }
    ensures most { result ≤ weight_limit }
{
    match end {
        None => 0,
        Some(value) => value.unsigned_abs(),
    }
}
