//! Copies of networks.

ghost use Rattle.std.specs.Prelude.{◌≡◌, IfOk};

use event_graph::Network;
use itv_base::NoMemory;
use std::alloc::Global;

/// A network that is equal to another one.
pub fn copied(alloc: Global, net: &Network) -> Result<Network, NoMemory>
    ensures { IfOk result (λ copy. copy ≡ net.now) }
{
    let mut copy = Network::new(alloc, net.events())?;
    for number in 0..net.len() {
        copy.push_copy(alloc, net, number)?;
    }
    Ok(copy)
}
