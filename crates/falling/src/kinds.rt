//! Choices of one kind.

ghost use Rattle.std.specs.Prelude.{◌≡◌, ◌<◌, IfSome, length, slice_get};
ghost use Rattle.event_graph.specs.Network.{Constraint};
ghost use Rattle.falling.specs.Kinds.{first_choice, is_choice};

use event_graph::Network;
use itv_base::RuleKind;

/// The least number of a constraint of a kind with two or more causes. No linear constraint has two causes.
pub fn first_choice(net: &Network, kind: RuleKind) -> Option<u32>
    ensures first { result ≡ first_choice kind net.now }
{
    for number in 0..net.len() {
        if is_choice(net, kind, number) {
            return Some(number);
        }
    }
    None
}

// Whether the constraint of a number is of a kind and has two or more causes.
fn is_choice(net: &Network, kind: RuleKind, number: u32) -> bool
    requires number { number < length net.now.constraints }
    ensures { IfSome (slice_get net.now.constraints number)
        (λ (c : Constraint). result ≡ is_choice kind c.kind (length c.causes)) }
{
    net.kind(number) == kind && 2 <= net.cause_count(number)
}
