//! Writing the bounds of a row after an unsettled finding: the root bounds.

ghost use Rattle.std.specs.Prelude.{◌≡◌, ◌<◌, ℕ, ℤ, Bool, [], List, IfOk, OnOk};
ghost use Rattle.branch.specs.Work.{IsMadeFor};
ghost use Rattle.event_graph.specs.Network.{Net};
ghost use Rattle.event_graph.specs.RootBound.{MeetsAlways};
ghost use Rattle.requirements.specs.Bounds.{HasTimes};
ghost use Rattle.right_report.specs.Right.ReportState.{NextBound, CurrentRow, at_bound, bounded, greatest, least_by};
ghost use Rattle.drawn_networks.specs.Drawn.{Drawn};
ghost use Rattle.requirements.specs.declared.consistency.Consistency.{Consistency};
ghost use Rattle.job_bounds.specs.Step.Witness.{HasFoundValue, IsOpenBound};
ghost use Rattle.job_bounds.specs.Step.Searched.{sized};
ghost use Rattle.job_bounds.specs.Step.Writing.{WritesVerdicts, IsOf};

use crate::pair::searched_pair;
use branch::{Root, Work, root_bound};
use event_graph::{Network, Pair};
use itv_base::{PutFailed, Sink};
use line_words::LineBuffer;
use requirements::{BothBounds, Bound};
use slack_report::{Item, Which, write_item};

/// Writes both bounds of a pair from its root bounds alone, without a search.
pub fn print_limits<K: Sink>(
    pair: Pair,
    net: &Network,
    work: &mut Work,
    buffer: &mut LineBuffer,
    sink: &mut K,
) -> Result<BothBounds, PutFailed>
    requires made { IsMadeFor net.now work.old }
    requires always { (times : List ℤ) × MeetsAlways times net.now }
    requires from { pair.from.0 < net.now.events }
    requires to { pair.to.0 < net.now.events }
    ensures made { OnOk result (IsMadeFor net.now work.new) }
    ensures known { OnOk result (work.new.known ≡ work.old.known) }
    ensures greatest { IfOk result (λ both. HasTimes both.greatest × (HasFoundValue both.greatest → ⊥)) }
    ensures least { IfOk result (λ both. HasTimes both.least × (HasFoundValue both.least → ⊥)) }
    ensures goes { (most : ℕ) (cert : Bool) (times : List ℤ) (drawn : Drawn) (current : CurrentRow) → current.tally.found ≡ Consistency.Open
        → current.row.from ≡ pair.from → current.row.to ≡ pair.to
        → WritesVerdicts (sized net.now most cert times) drawn (at_bound current greatest []) (λ both. bounded current (least_by both.greatest) both.least) (λ _. [])
        (K.state sink.old) (K.state sink.new) result }
{
    let greatest = limit_of(Which::Max, pair, net, work);
    put_limit(Which::Max, greatest, buffer, sink)?;
    let least = limit_of(Which::Min, pair, net, work);
    put_limit(Which::Min, least, buffer, sink)?;
    Ok(BothBounds { least, greatest })
}

// The root bound of the searched pair, as the greatest or the least bound of a pair.
fn limit_of(which: Which, pair: Pair, net: &Network, work: &mut Work) -> Bound
    requires made { IsMadeFor net.now work.old }
    requires always { (times : List ℤ) × MeetsAlways times net.now }
    requires from { pair.from.0 < net.now.events }
    requires to { pair.to.0 < net.now.events }
    ensures made { IsMadeFor net.now work.new }
    ensures known { work.new.known ≡ work.old.known }
    ensures open { IsOpenBound net.now pair which result }
    ensures times { HasTimes result }
{
    let searched = searched_pair(which, pair);
    let limit = match root_bound(work, net, searched.from, searched.to) {
        Root::Bound(upper) => upper,
        Root::NoTimes => unreachable!(),
    };
    let greatest = Bound::Within {
        limit,
        attained: None,
    };
    match which {
        Which::Max => greatest,
        Which::Min => greatest.reversed(),
    }
}

// Writes a bound of which only the limit is known.
fn put_limit<K: Sink>(
    which: Which,
    value: Bound,
    buffer: &mut LineBuffer,
    sink: &mut K,
) -> Result<(), PutFailed>
    ensures goes { (net : Net) (most : ℕ) (cert : Bool) (times : List ℤ) (drawn : Drawn) (current : CurrentRow) (coming : NextBound) (pair : Pair)
        → current.tally.found ≡ Consistency.Open → IsOf current coming pair which → IsOpenBound net pair which value
        → WritesVerdicts (sized net most cert times) drawn (at_bound current coming []) (λ _. bounded current coming value) (λ _. [])
        (K.state sink.old) (K.state sink.new) result }
{
    write_item(
        &Item::Bound {
            which,
            bound: value,
        },
        buffer,
        sink,
    )
}
