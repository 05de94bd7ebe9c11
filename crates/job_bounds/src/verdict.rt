//! Writing the verdict on a row.

ghost use Rattle.std.specs.Prelude.{◌≡◌, ◌<◌, ◌+◌, ◌∷◌, ℕ, ℤ, Bool, [], List, OnOk};
ghost use Rattle.requirements.specs.Bounds.{HasTimes};
ghost use Rattle.right_report.specs.Right.ReportState.{CurrentRow, at_row, at_verdict, with_bounds, with_verdict};
ghost use Rattle.drawn_networks.specs.Drawn.{Drawn};
ghost use Rattle.job_bounds.specs.Step.Witness.{HasFoundValue, IsWitness};
ghost use Rattle.job_bounds.specs.Step.Ready.{IsSet};
ghost use Rattle.job_bounds.specs.Step.Searched.{sized};
ghost use Rattle.job_bounds.specs.Step.Writing.{WritesVerdicts};

use crate::desk::Desk;
use crate::past::print_past;
use event_graph::{Network, Pair};
use itv_base::{PutFailed, Range, Sink};
use requirements::{BothBounds, Verdict, judge, slack};
use slack_report::{Item, Which, write_item};

/// Writes the verdict on a requirement according to the two bounds of its pair, times that break it if it fails, and the slacks.
pub fn print_verdict<K: Sink>(
    range: Range,
    pair: Pair,
    net: &Network,
    both: &BothBounds,
    desk: &mut Desk,
    sink: &mut K,
) -> Result<Verdict, PutFailed>
    requires set { IsSet net.now desk.old }
    requires from { pair.from.0 < net.now.events }
    requires to { pair.to.0 < net.now.events }
    requires most { HasTimes both.now.greatest }
    requires fewest { HasTimes both.now.least }
    requires greatest { HasFoundValue both.now.greatest → IsWitness net.now pair Which.Max both.now.greatest desk.old.greatest.times.items desk.old.greatest.set.items }
    requires least { HasFoundValue both.now.least → IsWitness net.now pair Which.Min both.now.least desk.old.least.times.items desk.old.least.set.items }
    ensures set { OnOk result (IsSet net.now desk.new) }
    ensures known { OnOk result (desk.new.work.known ≡ desk.old.work.known) }
    ensures goes { (most : ℕ) (cert : Bool) (times : List ℤ) (drawn : Drawn) (current : CurrentRow) → current.row.from ≡ pair.from → current.row.to ≡ pair.to
        → WritesVerdicts (sized net.now most cert times) drawn (at_verdict current range both.now.least both.now.greatest)
        (λ word. at_row (with_verdict (with_bounds current.tally both.now.least both.now.greatest) word) (current.number + 1) current.later)
        (λ word. word ∷ []) (K.state sink.old) (K.state sink.new) result }
{
    let word = judge(range, both);
    write_item(&Item::Verdict(word), &mut desk.buffer, sink)?;
    print_past(word, range, pair, net, both, desk, sink)?;
    write_item(&Item::Slack(slack(range, both)), &mut desk.buffer, sink)?;
    Ok(word)
}
