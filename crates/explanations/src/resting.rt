//! Whether a verdict rests on the order of a lane.

ghost use Rattle.std.specs.Prelude.{◌≡◌, ℕ, IfOk, IfSome};
ghost use Rattle.event_graph.specs.Network.{Net};
ghost use Rattle.drawn_networks.specs.Drawn.{IsRowOf};
ghost use Rattle.requirements.specs.declared.consistency.Consistency.{Consistency};
ghost use Rattle.explanations.specs.Answers.{AreRowBounds, HasTimesApart, RestsOnOrder};
ghost use Rattle.explanations.specs.Step.Standing.{HasSameBudget, IsSearchable, KeepsFinding, net_in, word_in};
ghost use Rattle.explanations.specs.Step.Resting.{AreBoundsApart};

use crate::bounding::both_bounds;
use crate::desk::Apart;
use drawn_networks::Row;
use event_graph::Pair;
use itv_base::{NoMemory, Range, RowKind};
use requirements::{BothBounds, Verdict, judge};
use std::alloc::Global;

/// Both bounds of a row in the network apart, or `None`. A requirement has them if it passes in the drawn network, and does not pass with them. `both`
/// are its bounds in the drawn network.
pub fn bounds_apart(
    alloc: Global,
    row: &Row,
    both: &BothBounds,
    apart: &mut Option<Apart>,
) -> Result<Option<BothBounds>, NoMemory>
    requires ready { IfSome apart.old (λ a. IsSearchable a.net a.searches) }
    requires row { IfSome apart.old (λ a. IsRowOf a.net row.now) }
    ensures ready { IfSome apart.new (λ a. IsSearchable a.net a.searches) }
    ensures same { (net : Net) → net_in net apart.new ≡ net_in net apart.old }
    ensures word { (word : Consistency) → word_in word apart.new ≡ word_in word apart.old }
    ensures budget { (budget : ℕ) → HasSameBudget budget apart.old → HasSameBudget budget apart.new }
    ensures rests { IfOk result (λ rests. (net : Net) (budget : ℕ) (word : Consistency) → HasSameBudget budget apart.old
        → AreRowBounds net budget word row.now both.now
        → AreBoundsApart (net_in net apart.old) budget (word_in word apart.old) row.now row.now.kind both.now rests) }
    ensures times { IfOk result HasTimesApart }
{
    match row.kind {
        RowKind::Ask => Ok(None),
        RowKind::Req(range) => {
            if judge(range, both) != Verdict::Pass {
                return Ok(None);
            }
            match apart {
                // The network apart is the network itself, where the row passes.
                None => Ok(None),
                Some(apart) => broken_apart(alloc, row, range, apart),
            }
        }
    }
}

// Both bounds of a row in the network apart, if the row does not pass with them.
fn broken_apart(
    alloc: Global,
    row: &Row,
    range: Range,
    apart: &mut Apart,
) -> Result<Option<BothBounds>, NoMemory>
    requires ready { IsSearchable apart.old.net apart.old.searches }
    requires row { IsRowOf apart.old.net row.now }
    ensures ready { IsSearchable apart.new.net apart.new.searches }
    ensures same { apart.new.net ≡ apart.old.net }
    ensures kept { KeepsFinding apart.old.searches apart.new.searches }
    ensures rests { IfOk result (RestsOnOrder apart.old.net apart.old.searches.extremes.budget apart.old.searches.word row.now range) }
    ensures times { IfOk result HasTimesApart }
{
    let pair = Pair {
        from: row.from,
        to: row.to,
    };
    let both = both_bounds(alloc, &apart.net, pair, &mut apart.searches)?;
    if judge(range, &both) == Verdict::Pass {
        Ok(None)
    } else {
        Ok(Some(both))
    }
}
