//! Times past an end of a range.

ghost use Rattle.std.specs.Prelude.{◌≡◌, ◌<◌, ℕ, ℤ, Bool, [], List, Some};
ghost use Rattle.event_graph.specs.Network.{IsNet};
ghost use Rattle.itv_base.specs.Outside.{Puts};
ghost use Rattle.itv_base.specs.Range.{IsEnd};
ghost use Rattle.slack_report.specs.Entry.{times as entry_times};
ghost use Rattle.slack_report.specs.Text.{entry_text};
ghost use Rattle.right_report.specs.Right.ReportState.{CurrentRow, behind_past, behind_verdict};
ghost use Rattle.drawn_networks.specs.Drawn.{Drawn};
ghost use Rattle.requirements.specs.Verdicts.{verdict_of};
ghost use Rattle.job_bounds.specs.Step.Witness.{ArePast, HasFoundValue, IsBeyond, IsWitness, IsRoomFor};
ghost use Rattle.job_bounds.specs.Step.Ready.{IsSet};
ghost use Rattle.job_bounds.specs.Step.Searched.{sized};
ghost use Rattle.job_bounds.specs.Step.Writing.{WritesVerdicts};

use crate::bound_witness::BoundWitness;
use crate::desk::Desk;
use crate::pair::{Extreme, searched_pair};
use event_graph::{Network, Pair, move_all};
use itv_base::{PutFailed, Range, Sink};
use line_words::LineBuffer;
use requirements::{BothBounds, Bound, Verdict, raise_past};
use slack_report::{Item, Which, write_item};

/// After a verdict that is a fail, writes times that break the requirement. After any other verdict writes nothing.
pub fn print_past<K: Sink>(
    word: Verdict,
    range: Range,
    pair: Pair,
    net: &Network,
    both: &BothBounds,
    desk: &mut Desk,
    sink: &mut K,
) -> Result<(), PutFailed>
    requires word { word ≡ verdict_of range both.now.least both.now.greatest }
    requires set { IsSet net.now desk.old }
    requires from { pair.from.0 < net.now.events }
    requires to { pair.to.0 < net.now.events }
    requires greatest { HasFoundValue both.now.greatest → IsWitness net.now pair Which.Max both.now.greatest desk.old.greatest.times.items desk.old.greatest.set.items }
    requires least { HasFoundValue both.now.least → IsWitness net.now pair Which.Min both.now.least desk.old.least.times.items desk.old.least.set.items }
    ensures set { IsSet net.now desk.new }
    ensures known { desk.new.work.known ≡ desk.old.work.known }
    ensures goes { (most : ℕ) (cert : Bool) (times : List ℤ) (drawn : Drawn) (current : CurrentRow) → current.row.from ≡ pair.from → current.row.to ≡ pair.to
        → WritesVerdicts (sized net.now most cert times) drawn (behind_verdict current range both.now.least both.now.greatest word)
        (λ _. behind_past current range both.now.least both.now.greatest word) (λ _. [])
        (K.state sink.old) (K.state sink.new) result }
{
    match word {
        Verdict::FailHigh => print_passed(
            Extreme {
                which: Which::Max,
                pair,
            },
            both.broken_high(range),
            both.greatest,
            net,
            &mut desk.greatest,
            &mut desk.buffer,
            sink,
        ),
        Verdict::FailLow => print_passed(
            Extreme {
                which: Which::Min,
                pair,
            },
            both.broken_low(range),
            both.least,
            net,
            &mut desk.least,
            &mut desk.buffer,
            sink,
        ),
        Verdict::Pass | Verdict::Undecided => Ok(()),
    }
}

// Writes times past a limit on the separation of the searched pair.
fn print_passed<K: Sink>(
    extreme: Extreme,
    limit: i64,
    value: Bound,
    net: &Network,
    kept: &mut BoundWitness,
    buffer: &mut LineBuffer,
    sink: &mut K,
) -> Result<(), PutFailed>
    requires limit { IsEnd (Some limit) }
    requires beyond { IsBeyond extreme.which value limit }
    requires to { extreme.pair.to.0 < net.now.events }
    requires room { IsRoomFor net.now kept.old }
    requires kept { IsWitness net.now extreme.pair extreme.which value kept.old.times.items kept.old.set.items }
    ensures room { IsRoomFor net.now kept.new }
    ensures puts { (list : List ℤ) × ArePast net.now extreme.pair extreme.which limit list
        × Puts (K.state sink.old) (K.state sink.new) (entry_text (entry_times list)) result }
{
    pass_limit(extreme.which, limit, value, extreme.pair, net, kept);
    write_item(&Item::Times(&kept.times), buffer, sink)
}

// Makes the kept times of a bound go past a limit: if the bound is unbounded, raises them; else they are past the limit already.
fn pass_limit(
    which: Which,
    limit: i64,
    value: Bound,
    pair: Pair,
    net: &Network,
    kept: &mut BoundWitness,
)
    requires limit { IsEnd (Some limit) }
    requires beyond { IsBeyond which value limit }
    requires to { pair.to.0 < net.now.events }
    requires room { IsRoomFor net.now kept.old }
    requires kept { IsWitness net.now pair which value kept.old.times.items kept.old.set.items }
    ensures room { IsRoomFor net.now kept.new }
    ensures past { ArePast net.now pair which limit kept.new.times.items }
{
    net.is_whole();
    match value {
        Bound::Unbounded => raise(which, limit, pair, net, &mut kept.times, &kept.set),
        Bound::Closed(_) | Bound::Within { .. } => {}
    }
}

// Raises the set of events until the separation of the searched pair is past a limit, and then moves all times so that the from-event is at 0.
fn raise(which: Which, limit: i64, pair: Pair, net: &Network, times: &mut [i64], set: &[bool])
    requires net { IsNet net.now }
    requires limit { IsEnd (Some limit) }
    requires to { pair.to.0 < net.now.events }
    requires kept { IsWitness net.now pair which Bound.Unbounded times.old set.now }
    ensures past { ArePast net.now pair which limit times.new }
{
    let searched = searched_pair(which, pair);
    raise_past(times, set, searched.from, searched.to, limit);
    move_all(times, pair.from);
}
