//! Greatest bounds of pairs of events.

ghost use Rattle.std.specs.Prelude.{◌≡◌, ◌<◌, IfOk};
ghost use Rattle.requirements.specs.Bounds.{HasTimes};
ghost use Rattle.drawn_networks.specs.declared.row.Row.{Row};
ghost use Rattle.explanations.specs.Answers.{AreRowBounds};
ghost use Rattle.explanations.specs.Step.Bounding.{IsPairFound};
ghost use Rattle.explanations.specs.Step.Standing.{IsSearchable, KeepsFinding};

use crate::searches::Searches;
use event_graph::{Network, Pair};
use extremes::Greatest;
use itv_base::NoMemory;
use requirements::{BothBounds, Consistency, Separation};
use std::alloc::Global;

/// What is found of the greatest separation of a pair of events of a network that is not inconsistent. After a consistent finding it is searched for.
/// After an open one nothing is searched, and the root bound is the limit.
pub fn search_pair(
    alloc: Global,
    net: &Network,
    pair: Pair,
    searches: &mut Searches,
) -> Result<Greatest, NoMemory>
    requires ready { IsSearchable net.now searches.old }
    requires from { pair.from.0 < net.now.events }
    requires to { pair.to.0 < net.now.events }
    ensures ready { IsSearchable net.now searches.new }
    ensures kept { KeepsFinding searches.old searches.new }
    ensures found { IfOk result (IsPairFound net.now searches.old.extremes.budget searches.old.word pair) }
{
    match searches.word {
        Consistency::Consistent => {
            let found = searches.extremes.greatest(alloc, net, pair.from, pair.to)?;
            Ok(found)
        }
        Consistency::Open => {
            let limit = searches.extremes.limit(net, pair.from, pair.to);
            Ok(Separation::Open {
                limit,
                attained: None,
            })
        }
        Consistency::Inconsistent => unreachable!(),
    }
}

/// Both bounds of a pair of events of a network that is not inconsistent.
pub fn both_bounds(
    alloc: Global,
    net: &Network,
    pair: Pair,
    searches: &mut Searches,
) -> Result<BothBounds, NoMemory>
    requires ready { IsSearchable net.now searches.old }
    requires from { pair.from.0 < net.now.events }
    requires to { pair.to.0 < net.now.events }
    ensures ready { IsSearchable net.now searches.new }
    ensures kept { KeepsFinding searches.old searches.new }
    ensures bounds { IfOk result (λ both. (row : Row) → row.from ≡ pair.from → row.to ≡ pair.to
        → AreRowBounds net.now searches.old.extremes.budget searches.old.word row both) }
    ensures least { IfOk result (λ both. HasTimes both.least) }
    ensures greatest { IfOk result (λ both. HasTimes both.greatest) }
{
    let greatest = search_pair(alloc, net, pair, searches)?.bound();
    let least = search_pair(alloc, net, pair.reversed(), searches)?
        .bound()
        .reversed();
    Ok(BothBounds { least, greatest })
}
