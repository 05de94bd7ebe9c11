//! All memory for the searches.

ghost use Rattle.std.specs.Prelude.{◌≡◌, ◌≤◌, ℕ, IfOk, IfSome};
ghost use Rattle.itv_base.specs.declared.limits.TheConstants.{MAX_BUDGET};
ghost use Rattle.event_graph.specs.Network.{Net};
ghost use Rattle.explanations.specs.Answers.{IsFindingApart};
ghost use Rattle.explanations.specs.Apart.{net_apart};
ghost use Rattle.explanations.specs.Step.Standing.{FindingAllows, HasSameBudget, IsDeskFor, IsFresh, IsSearchable, IsSettledApart, net_in};

use crate::apart::network_apart;
use crate::searches::Searches;
use chains::Chains;
use drawn_networks::DrawnNetwork;
use event_graph::Network;
use itv_base::NoMemory;
use requirements::Consistency;
use std::alloc::Global;

/// The network apart from the order of lanes, and the memory for its searches.
#[derive(Drop)]
pub struct Apart {
    pub net: Network,
    pub searches: Searches,
}

/// The memory for the searches of a drawn network and for its chains. Where some constraint keeps the order of a lane, it has the network apart and
/// the memory for its searches too.
#[derive(Drop)]
pub struct Desk {
    pub searches: Searches,
    pub chains: Chains,
    pub apart: Option<Apart>,
}

impl Desk {
    /// The memory for the searches, or `NoMemory`. Nothing is searched yet.
    pub fn new(alloc: Global, drawn: &DrawnNetwork, budget: u64) -> Result<Desk, NoMemory>
        requires least { 1 ≤ budget }
        requires most { budget ≤ MAX_BUDGET }
        ensures fresh { IfOk result (λ desk. IsFresh drawn.now.net desk.searches) }
        ensures desk { IfOk result (IsDeskFor drawn.now) }
        ensures budget { IfOk result (λ desk. desk.searches.extremes.budget ≡ budget) }
    {
        let net = drawn.network();
        let chains = Chains::new(alloc, net)?;
        let searches = Searches::new(alloc, net, budget)?;
        match new_apart(alloc, drawn, budget) {
            Ok(apart) => Ok(Desk {
                searches,
                chains,
                apart,
            }),
            Err(NoMemory) => {
                drop(searches);
                Err(NoMemory)
            }
        }
    }
}

// The network apart with its memory, or `None` if it is the drawn network itself.
fn new_apart(alloc: Global, drawn: &DrawnNetwork, budget: u64) -> Result<Option<Apart>, NoMemory>
    requires least { 1 ≤ budget }
    requires most { budget ≤ MAX_BUDGET }
    ensures apart { IfOk result (λ apart. net_in drawn.now.net apart ≡ net_apart drawn.now) }
    ensures fresh { IfOk result (λ apart. IfSome apart (λ a. IsFresh a.net a.searches)) }
    ensures budget { IfOk result (HasSameBudget budget) }
{
    match network_apart(alloc, drawn)? {
        None => Ok(None),
        Some(net) => {
            let searches = Searches::new(alloc, &net, budget)?;
            Ok(Some(Apart { net, searches }))
        }
    }
}

/// Makes the finding of the network apart. After a consistent finding of the drawn network it looks for times there too. After an unsettled one the
/// network apart stays unsettled.
pub fn settle_apart(
    alloc: Global,
    word: Consistency,
    apart: &mut Option<Apart>,
) -> Result<(), NoMemory>
    requires fresh { IfSome apart.old (λ a. IsFresh a.net a.searches) }
    requires allows { IfSome apart.old (λ a. FindingAllows a.net word) }
    ensures ready { IfOk result (λ _. IfSome apart.new (λ a. IsSearchable a.net a.searches)) }
    ensures finding { IfOk result (λ _. (budget : ℕ) → HasSameBudget budget apart.old → IsSettledApart budget word apart.new) }
    ensures budget { (budget : ℕ) → HasSameBudget budget apart.old → HasSameBudget budget apart.new }
    ensures same { (net : Net) → net_in net apart.new ≡ net_in net apart.old }
{
    match apart {
        None => Ok(()),
        Some(apart) => settle_in(alloc, word, apart),
    }
}

// Makes the finding of a network apart that is another network than the drawn one.
fn settle_in(alloc: Global, word: Consistency, apart: &mut Apart) -> Result<(), NoMemory>
    requires fresh { IsFresh apart.old.net apart.old.searches }
    requires allows { FindingAllows apart.old.net word }
    ensures ready { IfOk result (λ _. IsSearchable apart.new.net apart.new.searches) }
    ensures finding { IfOk result (λ _. IsFindingApart apart.old.net apart.old.searches.extremes.budget word apart.new.searches.word) }
    ensures budget { apart.new.searches.extremes.budget ≡ apart.old.searches.extremes.budget }
    ensures same { apart.new.net ≡ apart.old.net }
{
    match word {
        Consistency::Consistent => apart.searches.find(alloc, &apart.net),
        Consistency::Inconsistent | Consistency::Open => Ok(()),
    }
}
