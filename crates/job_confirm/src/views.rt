//! A network and its negation.

ghost use Rattle.std.specs.Prelude.{IfOk};
ghost use Rattle.job_confirm.specs.Step.{AreViewsOf};

use event_graph::Network;
use falling::{Limits, limits_of, negation_of};
use itv_base::NoMemory;
use std::alloc::Global;

/// The negation of a network, and the limits of the network.
#[derive(Drop)]
pub struct Views {
    pub negation: Network,
    pub limits: Limits,
}

impl Views {
    /// The views of a network, or `NoMemory`.
    pub fn new(alloc: Global, net: &Network) -> Result<Views, NoMemory>
        ensures views { IfOk result (AreViewsOf net.now) }
    {
        Ok(Views {
            negation: negation_of(alloc, net)?,
            limits: limits_of(net),
        })
    }
}
