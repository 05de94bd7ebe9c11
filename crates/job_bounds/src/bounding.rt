//! Writing one bound of a row.

ghost use Rattle.std.specs.Prelude.{◌≡◌, ◌<◌, ℕ, ℤ, Bool, [], List, All, IfOk, IsSomeAnd, OnOk};
ghost use Rattle.branch.specs.Answers.{IsGreatestAnswer, evidence};
ghost use Rattle.branch.specs.Work.{IsClose, IsMadeFor, IsKnownReach};
ghost use Rattle.event_graph.specs.Network.{Net};
ghost use Rattle.event_graph.specs.Proof.{ProofLine};
ghost use Rattle.event_graph.specs.Satisfying.{Satisfies};
ghost use Rattle.event_graph.specs.Times.{separation};
ghost use Rattle.requirements.specs.Bounds.{HasTimes};
ghost use Rattle.right_report.specs.Right.ReportState.{NextBound, CurrentRow, at_bound, bounded};
ghost use Rattle.drawn_networks.specs.Drawn.{Drawn};
ghost use Rattle.requirements.specs.declared.consistency.Consistency.{Consistency};
ghost use Rattle.job_bounds.specs.Step.Witness.{IsWitness, IsRoomFor, searched_pair};
ghost use Rattle.job_bounds.specs.Step.Searched.{bound_of, printed_known, search_of, sized};
ghost use Rattle.job_bounds.specs.Step.Writing.{WritesVerdicts, IsOf};

use crate::bound_witness::{BoundWitness, take_times};
use crate::pair::{Extreme, searched_pair};
use crate::search::greatest_of;
use crate::wanted::Wanted;
use branch::Work;
use event_graph::{Network, Pair};
use itv_base::{PutFailed, Sink};
use line_words::LineBuffer;
use requirements::Bound;
use slack_report::{Item, Which, write_item};

/// Searches for the bound of an extreme, and writes its lines: the lines of its proof if `wanted` asks for them, the bound, the times that attain it,
/// and, if it is unbounded, the set of events that shows this. `kept` has the times and the set from then on.
pub fn print_bound<K: Sink>(
    extreme: Extreme,
    net: &Network,
    wanted: Wanted,
    work: &mut Work,
    kept: &mut BoundWitness,
    buffer: &mut LineBuffer,
    sink: &mut K,
) -> Result<Bound, PutFailed>
    requires made { IsMadeFor net.now work.old }
    requires known { IsSomeAnd work.old.known (λ times. Satisfies times net.now) }
    requires from { extreme.pair.from.0 < net.now.events }
    requires to { extreme.pair.to.0 < net.now.events }
    requires budget { 0 < wanted.budget }
    requires room { IsRoomFor net.now kept.old }
    ensures made { OnOk result (IsMadeFor net.now work.new) }
    ensures known { OnOk result (work.new.known ≡ work.old.known) }
    ensures room { OnOk result (IsRoomFor net.now kept.new) }
    ensures times { IfOk result HasTimes }
    ensures kept { IfOk result (λ value. IsWitness net.now extreme.pair extreme.which value kept.new.times.items kept.new.set.items) }
    ensures goes { (times : List ℤ) (drawn : Drawn) (current : CurrentRow) (coming : NextBound) → times ≡ printed_known work.old.known
        → current.tally.found ≡ Consistency.Consistent → IsOf current coming extreme.pair extreme.which
        → WritesVerdicts (sized net.now wanted.budget wanted.cert times) drawn (at_bound current coming []) (λ value. bounded current coming value) (λ _. [])
        (K.state sink.old) (K.state sink.new) result }
{
    let Extreme { which, pair } = extreme;
    let answer = greatest_of(work, net, searched_pair(which, pair), wanted, buffer, sink)?;
    keep(net, pair, which, answer, work, kept);
    let value = bound_of(which, answer);
    put_bound(which, value, kept, buffer, sink)?;
    Ok(value)
}

// Keeps the times that the last search left, with the from-event of the pair at 0. Where the bound is unbounded, keeps the set of events that shows
// this too.
fn keep(
    net: &Network,
    pair: Pair,
    which: Which,
    answer: Bound,
    work: &Work,
    kept: &mut BoundWitness,
)
    requires answers { (budget : ℕ) × (lines : List ProofLine)
        × IsGreatestAnswer (search_of net.now (searched_pair which pair) budget) (evidence lines work.now) answer }
    requires times { Satisfies work.now.times net.now }
    requires close { All IsClose work.now.times }
    requires reached { IsKnownReach (separation work.now.times (searched_pair which pair).from (searched_pair which pair).to) }
    requires from { pair.from.0 < net.now.events }
    requires to { pair.to.0 < net.now.events }
    requires room { IsRoomFor net.now kept.old }
    ensures room { IsRoomFor net.now kept.new }
    ensures kept { IsWitness net.now pair which (bound_of which answer) kept.new.times.items kept.new.set.items }
{
    net.is_whole();
    take_times(&mut kept.times, work.times(), pair.from);
    match answer {
        Bound::Unbounded => kept.set.copy_from_slice(work.ray()),
        Bound::Closed(_) | Bound::Within { .. } => {}
    }
}

// The bound of a pair from the answer of the search on its searched pair.
fn bound_of(which: Which, answer: Bound) -> Bound
    requires times { HasTimes answer }
    ensures bound { result ≡ bound_of which answer }
    ensures times { HasTimes result }
{
    match which {
        Which::Max => answer,
        Which::Min => answer.reversed(),
    }
}

// Writes a bound, the times that attain it, and, if it is unbounded, the set of events that shows this.
fn put_bound<K: Sink>(
    which: Which,
    value: Bound,
    kept: &BoundWitness,
    buffer: &mut LineBuffer,
    sink: &mut K,
) -> Result<(), PutFailed>
    ensures goes { (net : Net) (most : ℕ) (cert : Bool) (times : List ℤ) (drawn : Drawn) (current : CurrentRow) (coming : NextBound) (lines : List ProofLine) (pair : Pair)
        → IsOf current coming pair which → (sized net most cert times).bound current.tally.found current.row coming lines value
        → IsWitness net pair which value kept.now.times.items kept.now.set.items
        → WritesVerdicts (sized net most cert times) drawn (at_bound current coming lines) (λ _. bounded current coming value) (λ _. [])
        (K.state sink.old) (K.state sink.new) result }
{
    write_item(
        &Item::Bound {
            which,
            bound: value,
        },
        buffer,
        sink,
    )?;
    write_item(&Item::Times(&kept.times), buffer, sink)?;
    match value {
        Bound::Unbounded => write_item(&Item::Raise(&kept.set), buffer, sink),
        Bound::Closed(_) | Bound::Within { .. } => Ok(()),
    }
}
