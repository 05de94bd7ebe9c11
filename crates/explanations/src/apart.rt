//! The network apart from the order of lanes.

ghost use Rattle.std.specs.Prelude.{◌≡◌, ◌<◌, false, IfOk, IsSomeAnd, MatchOption, length, slice_get};
ghost use Rattle.explanations.specs.Apart.{keeps_order, net_apart};

use drawn_networks::{DrawnNetwork, Origins};
use event_graph::Network;
use itv_base::NoMemory;
use origin::Origin;
use std::alloc::Global;

/// The network of a drawn network without the constraints that keep the order of a lane. The answer is `None` if no constraint keeps one; the
/// network apart is the network itself then.
pub fn network_apart(alloc: Global, drawn: &DrawnNetwork) -> Result<Option<Network>, NoMemory>
    ensures apart { IfOk result (λ apart. MatchOption apart (net_apart drawn.now ≡ drawn.now.net) (λ net. net ≡ net_apart drawn.now)) }
{
    if !keeps_some_order(drawn) {
        return Ok(None);
    }
    let net = drawn.network();
    let origins = drawn.origins();
    let mut apart = Network::new(alloc, net.events())?;
    for number in 0..net.len() {
        if !keeps_order_at(origins, number) {
            apart.push_copy(alloc, net, number)?;
        }
    }
    Ok(Some(apart))
}

// Whether some constraint keeps the order of a lane.
fn keeps_some_order(drawn: &DrawnNetwork) -> bool
    ensures none { result ≡ false → net_apart drawn.now ≡ drawn.now.net }
{
    let net = drawn.network();
    let origins = drawn.origins();
    for number in 0..net.len() {
        if keeps_order_at(origins, number) {
            return true;
        }
    }
    false
}

// Whether the constraint with this number keeps the order of a lane.
fn keeps_order_at(origins: &Origins, number: u32) -> bool
    requires there { number < length origins.now }
    ensures order { IsSomeAnd (slice_get origins.now number) (λ drew. result ≡ keeps_order drew) }
{
    keeps_order(origins.get(u64::from(number)).as_slice())
}

// Whether a constraint keeps the order of a lane, according to the origins of its causes.
fn keeps_order(origins: &[Origin]) -> bool
    ensures { result ≡ keeps_order origins.now }
{
    origins.iter().any(|origin| origin.is_lane())
}
