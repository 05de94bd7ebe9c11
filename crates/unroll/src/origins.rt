//! The origins of the causes of constraints, cycle by cycle.

ghost use Rattle.std.specs.Prelude.{◌≡◌, ◌++◌, IfOk, OnOk, map};
ghost use Rattle.std.specs.List.{filter_map};
ghost use Rattle.std.specs.Option.{option_to_list};
ghost use Rattle.unroll.specs.Cycles.{origins_in, origins_of};

use crate::network::rule_exists;
use drawn_networks::Origins;
use itv_base::{Listing, NoMemory};
use origin::Origin;
use sheet::{Rule, RuleCause};
use std::alloc::Global;

/// What draws the causes of rules in so many cycles: a list for each constraint, in the order of the constraints.
pub fn origins_of(alloc: Global, cycles: u32, rules: &[Rule]) -> Result<Origins, NoMemory>
    ensures { IfOk result (λ origins. origins ≡ origins_of rules.now cycles) }
{
    let mut origins = Origins::new(alloc);
    for cycle in 0..cycles {
        push_cycle(alloc, &mut origins, cycle, rules)?;
    }
    Ok(origins)
}

// Puts what draws the causes of rules in a cycle at the end.
fn push_cycle(
    alloc: Global,
    origins: &mut Origins,
    cycle: u32,
    rules: &[Rule],
) -> Result<(), NoMemory>
    ensures { OnOk result (origins.new ≡ origins.old ++ filter_map (origins_in cycle) rules.now) }
{
    for rule in rules {
        push_rule(alloc, origins, cycle, rule)?;
    }
    Ok(())
}

// Puts what draws the causes of a rule in a cycle at the end, if it exists there.
fn push_rule(alloc: Global, origins: &mut Origins, cycle: u32, rule: &Rule) -> Result<(), NoMemory>
    ensures { OnOk result (origins.new ≡ origins.old ++ option_to_list (origins_in cycle rule.now)) }
{
    if !rule_exists(cycle, rule) {
        return Ok(());
    }
    origins.push(source_origins(alloc, rule.causes().as_slice())?)
}

// What draws each of some causes.
fn source_origins(alloc: Global, sources: &[RuleCause]) -> Result<Listing<Origin>, NoMemory>
    ensures { IfOk result (λ origins. origins ≡ map (λ source. source.origin) sources.now) }
{
    let mut origins: Listing<Origin> = Listing::new(alloc);
    for source in sources {
        origins.push(source.origin)?;
    }
    Ok(origins)
}
