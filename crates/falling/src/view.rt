//! Views of a network.

ghost use Rattle.std.specs.Prelude.{◌≡◌};
ghost use Rattle.falling.specs.View.{view_of};

use crate::fault::Mixed;
use crate::kinds::first_choice;
use event_graph::Network;
use itv_base::RuleKind;

/// Which network is solved. The choices of the network, its constraints with two or more causes, are all of one kind.
#[derive(Clone, Copy)]
pub enum View {
    /// The network itself, which has no earliest choice.
    Plain,
    /// The negation: the network has an earliest choice and no latest choice.
    Negated,
}

impl View {
    /// The view of a network. The answer is [`Mixed`], with the first choice of each kind, if and only if there are choices of both kinds. Takes
    /// no memory.
    pub fn of(net: &Network) -> Result<View, Mixed>
        ensures view { result ≡ view_of net.now }
    {
        let early = match first_choice(net, RuleKind::Early) {
            Some(early) => early,
            None => return Ok(View::Plain),
        };
        match first_choice(net, RuleKind::Late) {
            Some(late) => Err(Mixed { late, early }),
            None => Ok(View::Negated),
        }
    }
}
