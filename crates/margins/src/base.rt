//! What is found of the network as it is drawn.

ghost use Rattle.std.specs.Prelude.{◌≡◌, ◌≤◌, IfOk, false};
ghost use Rattle.event_graph.specs.Edges.{cause_choices};
ghost use Rattle.extremes.specs.Ready.{AreTurnsOf};
ghost use Rattle.moves.specs.Networks.{IsNetFound, is_net_open};
ghost use Rattle.probing.specs.Step.{IsProbed};

use drawn_networks::DrawnNetwork;
use extremes::RunTurns;
use itv_base::NoMemory;
use probing::{Probed, probe};
use std::alloc::Global;

/// What is found of the network as it is drawn.
pub type Base = Probed;

/// Looks for times that satisfy a drawn network, and for times that break a requirement. Nothing is left open where the budget is no less than the number of
/// cause choices. Times that it leaves fit the network.
pub fn base_of(
    alloc: Global,
    drawn: &DrawnNetwork,
    budget: u64,
    turns: &mut RunTurns,
) -> Result<Base, NoMemory>
    requires budget { 1 ≤ budget }
    ensures found { IfOk result (λ base. IsNetFound drawn.now base.found) }
    ensures settles { IfOk result (λ base. cause_choices drawn.now.net.constraints ≤ budget → is_net_open base.found ≡ false) }
    ensures fits { IfOk result (IsProbed drawn.now.net.events) }
    ensures turns { AreTurnsOf turns.old turns.new }
{
    probe(
        alloc,
        drawn.network(),
        drawn.rows().as_slice(),
        budget,
        turns,
    )
}
