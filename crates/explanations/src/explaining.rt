//! Greatest bounds, with their reasons.

ghost use Rattle.std.specs.Prelude.{◌≡◌, ◌<◌, ℕ, IfOk};
ghost use Rattle.requirements.specs.Bounds.{HasTimes};
ghost use Rattle.extremes.specs.Found.{IsAttainedBy};
ghost use Rattle.requirements.specs.Separations.{bound_of};
ghost use Rattle.requirements.specs.declared.consistency.Consistency.{Consistency};
ghost use Rattle.explanations.specs.Step.Bounding.{IsExplained};
ghost use Rattle.explanations.specs.Step.Standing.{IsSearchable, KeepsFinding};

use crate::bound::BoundFound;
use crate::bounding::search_pair;
use crate::searches::Searches;
use chains::Chains;
use event_graph::{Network, Pair};
use itv_base::NoMemory;
use requirements::Separation;
use std::alloc::Global;

/// The greatest bound of a pair of events of a network that is not inconsistent, with its reason.
pub fn explain_greatest(
    alloc: Global,
    net: &Network,
    pair: Pair,
    searches: &mut Searches,
    chains: &mut Chains,
) -> Result<BoundFound, NoMemory>
    requires ready { IsSearchable net.now searches.old }
    requires chains { chains.old.events ≡ net.now.events }
    requires from { pair.from.0 < net.now.events }
    requires to { pair.to.0 < net.now.events }
    ensures ready { IsSearchable net.now searches.new }
    ensures kept { KeepsFinding searches.old searches.new }
    ensures chains { chains.new.events ≡ net.now.events }
    ensures found { IfOk result (IsExplained net.now searches.old.extremes.budget searches.old.word pair) }
    ensures times { IfOk result (λ found. HasTimes (bound_of found)) }
{
    match search_pair(alloc, net, pair, searches)? {
        Separation::Closed { value, shown } => {
            explain_closed(alloc, net, pair, value, &shown, chains)
        }
        Separation::Unbounded { shown } => Ok(Separation::Unbounded { shown }),
        Separation::Open { limit, attained } => Ok(Separation::Open { limit, attained }),
    }
}

// A greatest separation that some times attain, with its chain.
fn explain_closed(
    alloc: Global,
    net: &Network,
    pair: Pair,
    value: i64,
    times: &[i64],
    chains: &mut Chains,
) -> Result<BoundFound, NoMemory>
    requires attained { IsAttainedBy net.now pair.from pair.to value times.now }
    requires chains { chains.old.events ≡ net.now.events }
    requires from { pair.from.0 < net.now.events }
    requires to { pair.to.0 < net.now.events }
    ensures chains { chains.new.events ≡ net.now.events }
    ensures found { IfOk result (λ found. (budget : ℕ) → IsExplained net.now budget Consistency.Consistent pair found) }
    ensures times { IfOk result (λ found. HasTimes (bound_of found)) }
{
    if !chains.find(net, times, pair.from, pair.to) {
        // The times attain the greatest separation, so there is a chain.
        unreachable!()
    }
    let chain = Vec::from_slice(alloc, chains.names())?;
    Ok(Separation::Closed {
        value,
        shown: chain,
    })
}
