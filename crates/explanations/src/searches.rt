//! The searches of a network.

ghost use Rattle.std.specs.Prelude.{◌≡◌, ◌≤◌, IfOk};
ghost use Rattle.itv_base.specs.declared.limits.TheConstants.{MAX_BUDGET};
ghost use Rattle.extremes.specs.Ready.{IsFor};
ghost use Rattle.explanations.specs.Step.Standing.{HasFound, IsFresh};

use event_graph::Network;
use extremes::{Extremes, run_turns};
use itv_base::NoMemory;
use requirements::Consistency;
use std::alloc::Global;

/// The memory for the searches of a network, how long they may go on, and what was found of the network.
#[derive(Drop)]
pub struct Searches {
    pub extremes: Extremes,
    pub word: Consistency,
}

impl Searches {
    /// The memory for the searches of a network, or `NoMemory`. Nothing is searched yet. Each search closes at most `budget` cases, and takes at most a
    /// thousand turns for each; all together take at most four times as many turns.
    pub fn new(alloc: Global, net: &Network, budget: u64) -> Result<Searches, NoMemory>
        requires least { 1 ≤ budget }
        requires most { budget ≤ MAX_BUDGET }
        ensures fresh { IfOk result (IsFresh net.now) }
        ensures budget { IfOk result (λ searches. searches.extremes.budget ≡ budget) }
    {
        let turns = run_turns(budget);
        Ok(Searches {
            extremes: Extremes::new(alloc, net, budget, turns)?,
            word: Consistency::Open,
        })
    }

    /// Looks for times that satisfy the network.
    pub fn find(&mut self, alloc: Global, net: &Network) -> Result<(), NoMemory>
        requires made { IsFor net.now self.old.extremes }
        ensures found { IfOk result (λ _. HasFound net.now self.new.word self.new.extremes) }
        ensures budget { self.new.extremes.budget ≡ self.old.extremes.budget }
    {
        self.word = self.extremes.find(alloc, net)?;
        Ok(())
    }
}
