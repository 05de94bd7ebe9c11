//! Writing a row.

ghost use Rattle.std.specs.Prelude.{◌≡◌, ◌<◌, ◌+◌, ◌∷◌, ℕ, ℤ, Bool, [], List, IfOk, IsSomeAnd, OnOk};
ghost use Rattle.std.specs.Option.{option_to_list};
ghost use Rattle.requirements.specs.Bounds.{HasTimes};
ghost use Rattle.right_report.specs.Right.ReportState.{CurrentRow, at_bound, at_row, bounded, greatest, judged, least_by, with_bounds};
ghost use Rattle.right_report.specs.declared.tally.ReportTally.{ReportTally};
ghost use Rattle.drawn_networks.specs.Drawn.{Drawn, IsRowOf};
ghost use Rattle.drawn_networks.specs.declared.row.Row.{Row};
ghost use Rattle.job_bounds.specs.Step.Witness.{HasFoundValue, IsWitness};
ghost use Rattle.job_bounds.specs.Step.Ready.{IsReady, IsSet, tally_after, tally_with};
ghost use Rattle.job_bounds.specs.Step.Searched.{printed_known, sized};
ghost use Rattle.job_bounds.specs.Step.Writing.{WritesVerdicts};
ghost use Rattle.event_graph.specs.Satisfying.{Satisfies};

use crate::bounding::print_bound;
use crate::desk::Desk;
use crate::limits::print_limits;
use crate::pair::Extreme;
use crate::tally::RowEnd;
use crate::verdict::print_verdict;
use crate::wanted::Wanted;
use drawn_networks::{DrawnNetwork, Row};
use event_graph::{Network, Pair};
use itv_base::{PutFailed, RowKind, Sink};
use job_base::put_row;
use requirements::{BothBounds, Consistency, Verdict};
use slack_report::Which;

/// Writes a row: its own line, both bounds, and for a requirement the verdict.
pub fn print_row<K: Sink>(
    number: u32,
    row: &Row,
    found: Consistency,
    drawn: &DrawnNetwork,
    wanted: Wanted,
    desk: &mut Desk,
    sink: &mut K,
) -> Result<RowEnd, PutFailed>
    requires budget { 0 < wanted.budget }
    requires found { found ≡ Consistency.Inconsistent → ⊥ }
    requires ready { IsReady drawn.now.net found desk.old }
    requires row { IsRowOf drawn.now.net row.now }
    ensures ready { OnOk result (IsReady drawn.now.net found desk.new) }
    ensures known { OnOk result (desk.new.work.known ≡ desk.old.work.known) }
    ensures goes { (times : List ℤ) (report_tally : ReportTally) (later : List Row) → times ≡ printed_known desk.old.work.known → report_tally.found ≡ found
        → WritesVerdicts (sized drawn.now.net wanted.budget wanted.cert times) drawn.now (at_row report_tally number (row.now ∷ later))
        (λ end. at_row (tally_after report_tally end) (number + 1) later) (λ end. option_to_list end.verdict)
        (K.state sink.old) (K.state sink.new) result }
{
    put_row(number, row, drawn, &mut desk.buffer, sink)?;
    let pair = Pair {
        from: row.from,
        to: row.to,
    };
    let both = print_bounds(found, pair, drawn.network(), wanted, desk, sink)?;
    let verdict = print_demand(&row.kind, pair, drawn.network(), &both, desk, sink)?;
    Ok(RowEnd { verdict, both })
}

// Writes the verdict of a row, if the row is a requirement.
fn print_demand<K: Sink>(
    kind: &RowKind,
    pair: Pair,
    net: &Network,
    both: &BothBounds,
    desk: &mut Desk,
    sink: &mut K,
) -> Result<Option<Verdict>, PutFailed>
    requires set { IsSet net.now desk.old }
    requires from { pair.from.0 < net.now.events }
    requires to { pair.to.0 < net.now.events }
    requires most { HasTimes both.now.greatest }
    requires fewest { HasTimes both.now.least }
    requires greatest { HasFoundValue both.now.greatest → IsWitness net.now pair Which.Max both.now.greatest desk.old.greatest.times.items desk.old.greatest.set.items }
    requires least { HasFoundValue both.now.least → IsWitness net.now pair Which.Min both.now.least desk.old.least.times.items desk.old.least.set.items }
    ensures set { OnOk result (IsSet net.now desk.new) }
    ensures known { OnOk result (desk.new.work.known ≡ desk.old.work.known) }
    ensures goes { (most : ℕ) (cert : Bool) (times : List ℤ) (drawn : Drawn) (current : CurrentRow) → current.row.from ≡ pair.from → current.row.to ≡ pair.to
        → WritesVerdicts (sized net.now most cert times) drawn (judged kind.now current both.now.least both.now.greatest)
        (λ verdict. at_row (tally_with (with_bounds current.tally both.now.least both.now.greatest) verdict) (current.number + 1) current.later)
        (λ verdict. option_to_list verdict) (K.state sink.old) (K.state sink.new) result }
{
    match kind {
        RowKind::Ask => Ok(None),
        RowKind::Req(range) => {
            let word = print_verdict(*range, pair, net, both, desk, sink)?;
            Ok(Some(word))
        }
    }
}

// Writes both bounds of a pair.
fn print_bounds<K: Sink>(
    found: Consistency,
    pair: Pair,
    net: &Network,
    wanted: Wanted,
    desk: &mut Desk,
    sink: &mut K,
) -> Result<BothBounds, PutFailed>
    requires budget { 0 < wanted.budget }
    requires found { found ≡ Consistency.Inconsistent → ⊥ }
    requires ready { IsReady net.now found desk.old }
    requires from { pair.from.0 < net.now.events }
    requires to { pair.to.0 < net.now.events }
    ensures set { OnOk result (IsSet net.now desk.new) }
    ensures known { OnOk result (desk.new.work.known ≡ desk.old.work.known) }
    ensures most { IfOk result (λ both. HasTimes both.greatest) }
    ensures fewest { IfOk result (λ both. HasTimes both.least) }
    ensures greatest { IfOk result (λ both. HasFoundValue both.greatest
        → IsWitness net.now pair Which.Max both.greatest desk.new.greatest.times.items desk.new.greatest.set.items) }
    ensures least { IfOk result (λ both. HasFoundValue both.least
        → IsWitness net.now pair Which.Min both.least desk.new.least.times.items desk.new.least.set.items) }
    ensures goes { (times : List ℤ) (drawn : Drawn) (current : CurrentRow) → times ≡ printed_known desk.old.work.known
        → current.tally.found ≡ found → current.row.from ≡ pair.from → current.row.to ≡ pair.to
        → WritesVerdicts (sized net.now wanted.budget wanted.cert times) drawn (at_bound current greatest [])
        (λ both. bounded current (least_by both.greatest) both.least) (λ _. [])
        (K.state sink.old) (K.state sink.new) result }
{
    match found {
        Consistency::Consistent => print_searched(pair, net, wanted, desk, sink),
        Consistency::Open => print_limits(pair, net, &mut desk.work, &mut desk.buffer, sink),
        Consistency::Inconsistent => unreachable!(),
    }
}

// Writes both bounds of a pair, each by a search.
fn print_searched<K: Sink>(
    pair: Pair,
    net: &Network,
    wanted: Wanted,
    desk: &mut Desk,
    sink: &mut K,
) -> Result<BothBounds, PutFailed>
    requires budget { 0 < wanted.budget }
    requires set { IsSet net.now desk.old }
    requires known { IsSomeAnd desk.old.work.known (λ times. Satisfies times net.now) }
    requires from { pair.from.0 < net.now.events }
    requires to { pair.to.0 < net.now.events }
    ensures set { OnOk result (IsSet net.now desk.new) }
    ensures known { OnOk result (desk.new.work.known ≡ desk.old.work.known) }
    ensures most { IfOk result (λ both. HasTimes both.greatest) }
    ensures fewest { IfOk result (λ both. HasTimes both.least) }
    ensures greatest { IfOk result (λ both. HasFoundValue both.greatest
        → IsWitness net.now pair Which.Max both.greatest desk.new.greatest.times.items desk.new.greatest.set.items) }
    ensures least { IfOk result (λ both. HasFoundValue both.least
        → IsWitness net.now pair Which.Min both.least desk.new.least.times.items desk.new.least.set.items) }
    ensures goes { (times : List ℤ) (drawn : Drawn) (current : CurrentRow) → times ≡ printed_known desk.old.work.known
        → current.tally.found ≡ Consistency.Consistent → current.row.from ≡ pair.from → current.row.to ≡ pair.to
        → WritesVerdicts (sized net.now wanted.budget wanted.cert times) drawn (at_bound current greatest [])
        (λ both. bounded current (least_by both.greatest) both.least) (λ _. [])
        (K.state sink.old) (K.state sink.new) result }
{
    let greatest = print_bound(
        Extreme {
            which: Which::Max,
            pair,
        },
        net,
        wanted,
        &mut desk.work,
        &mut desk.greatest,
        &mut desk.buffer,
        sink,
    )?;
    let least = print_bound(
        Extreme {
            which: Which::Min,
            pair,
        },
        net,
        wanted,
        &mut desk.work,
        &mut desk.least,
        &mut desk.buffer,
        sink,
    )?;
    Ok(BothBounds { least, greatest })
}
