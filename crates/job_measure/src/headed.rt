//! The constraints of a network with the headings of the rules that draw them.

ghost use Rattle.std.specs.Prelude.{◌≡◌, ◌+◌, ◌<◌, ◌∷◌, IfOk, Some, drop, length, slice_get};
ghost use Rattle.std.specs.List.{list_any};
ghost use Rattle.line_words.specs.Words.{is_word};
ghost use Rattle.job_measure.specs.Lines.{Headed, headed, under};

use crate::heading::rule_heading;
use crate::rule::RuleCopy;
use drawn_networks::DrawnNetwork;
use itv_base::NoMemory;
use origin::Origin;
use std::alloc::Global;
use std::marker::Model;

/// A constraint with the heading of the rule that draws it.
#[derive(Drop)]
pub struct Headed {
    pub heading: Vec<u8>,
    pub rule: RuleCopy,
}

impl Model for Headed {
    ghost use Rattle.job_measure.specs.Lines.{Headed};

    ghost Value = { Headed };

    ghost view = { λ h. record { heading = h.heading.items; constraint = h.rule } };
}

/// All constraints of a network with their headings, in order.
pub fn headed_in(alloc: Global, drawn: &DrawnNetwork) -> Result<Vec<Headed>, NoMemory>
    ensures headed { IfOk result (λ all. all.items ≡ headed drawn.now drawn.now.net.constraints drawn.now.origins) }
{
    let mut all: Vec<Headed> = Vec::new(alloc);
    for number in 0..drawn.network().len() {
        all.push(headed_at(alloc, drawn, number)?)?;
    }
    Ok(all)
}

// The constraint of a number with its heading.
fn headed_at(alloc: Global, drawn: &DrawnNetwork, number: u32) -> Result<Headed, NoMemory>
    requires there { number < length drawn.now.net.constraints }
    ensures { IfOk result (λ h. headed drawn.now (drop number drawn.now.net.constraints) (drop number drawn.now.origins)
        ≡ h ∷ headed drawn.now (drop (number + 1) drawn.now.net.constraints) (drop (number + 1) drawn.now.origins)) }
{
    let net = drawn.network();
    net.is_whole();
    let rule = RuleCopy::of(alloc, net, number)?;
    let heading = rule_heading(alloc, drawn, &rule, origins_of(drawn, number))?;
    Ok(Headed { heading, rule })
}

// What draws the causes of a constraint of the network.
fn origins_of(drawn: &DrawnNetwork, number: u32) -> &[Origin]
    requires there { number < length drawn.now.net.constraints }
    ensures origins { slice_get drawn.now.origins number ≡ Some result.now }
{
    drawn.origins().get(u64::from(number)).as_slice()
}

/// The constraints with this heading, in order.
pub fn under(alloc: Global, heading: &[u8], all: &[Headed]) -> Result<Vec<RuleCopy>, NoMemory>
    ensures under { IfOk result (λ rules. rules.items ≡ under heading.now all.now) }
{
    let mut rules: Vec<RuleCopy> = Vec::new(alloc);
    for one in all {
        if one.heading.as_slice() == heading {
            rules.push(one.rule.copied(alloc)?)?;
        }
    }
    Ok(rules)
}

/// Whether one of some constraints has the heading of another.
pub fn is_known(one: &Headed, some: &[Headed]) -> bool
    ensures known { result ≡ list_any (λ (h : Headed). is_word h.heading one.now.heading) some.now }
{
    has_heading(&one.heading, some)
}

fn has_heading(heading: &[u8], some: &[Headed]) -> bool
    ensures has { result ≡ list_any (λ (h : Headed). is_word h.heading heading.now) some.now }
{
    some.iter().any(|one| one.heading.as_slice() == heading)
}
