//! The causes that a number draws.

ghost use Rattle.std.specs.Prelude.{◌≡◌, ◌<◌, ◌≤◌, ◌∷◌, ◌++◌, [], All, IfOk, OnOk, if◌then◌else◌, length};
ghost use Rattle.itv_base.specs.declared.limits.TheConstants.{MAX_CAUSES};
ghost use Rattle.drawn_numbers.specs.Numbers.{IsCauseOf, causes_among, causes_of, draws, origins_of, part_of_target};

use crate::cause_name::CauseName;
use crate::drawn_number::DrawnNumber;
use drawn_networks::DrawnNetwork;
use itv_base::NoMemory;
use origin::Origin;
use std::alloc::Global;

/// The causes that a number draws, in the order of constraints and of their causes. Each is there. There is none for a number that the design does not
/// have, and for one that draws rows alone.
pub fn causes_of(
    alloc: Global,
    drawn: &DrawnNetwork,
    number: &DrawnNumber,
) -> Result<Vec<CauseName>, NoMemory>
    ensures causes { IfOk result (λ causes. causes.items ≡ causes_of drawn.now number.now) }
    ensures there { IfOk result (λ causes. All (IsCauseOf drawn.now.net) causes.items) }
{
    let mut causes = Vec::new(alloc);
    // Each cause has an origin, and each origin is the origin of a cause.
    let _origins = drawn.origins();
    for constraint in 0..drawn.network().len() {
        let part = part_of_target(drawn, constraint);
        let origins = origins_of(drawn, constraint);
        add_causes(&mut causes, number, part, constraint, origins)?;
    }
    Ok(causes)
}

// The part of the target of a constraint of the network.
fn part_of_target(drawn: &DrawnNetwork, constraint: u32) -> &str
    requires there { constraint < length drawn.now.net.constraints }
    ensures part { result.now ≡ part_of_target drawn.now constraint }
{
    let net = drawn.network();
    net.is_whole();
    drawn.name(net.target(constraint)).part
}

// What draws the causes of a constraint of the network.
fn origins_of(drawn: &DrawnNetwork, constraint: u32) -> &[Origin]
    requires there { constraint < length drawn.now.net.constraints }
    ensures origins { result.now ≡ origins_of drawn.now constraint }
    ensures few { length result.now ≤ MAX_CAUSES }
{
    drawn.network().is_whole();
    drawn.origins().get(u64::from(constraint)).as_slice()
}

// Adds the causes of a constraint that a number draws.
fn add_causes(
    causes: &mut Vec<CauseName>,
    number: &DrawnNumber,
    part: &str,
    constraint: u32,
    origins: &[Origin],
) -> Result<(), NoMemory>
    requires few { length origins.now ≤ MAX_CAUSES }
    ensures added { OnOk result (causes.new.items ≡ causes.old.items
        ++ causes_among (draws number.now part.now) constraint origins.now (length origins.now)) }
{
    for k in 0..origins.len() {
        let name = CauseName {
            constraint,
            cause: k as u32,
        };
        add_drawn(causes, name, number.draws(part, origins[k]))?;
    }
    Ok(())
}

// Adds a cause, if it is drawn.
fn add_drawn(causes: &mut Vec<CauseName>, name: CauseName, is_drawn: bool) -> Result<(), NoMemory>
    ensures { OnOk result (causes.new.items ≡ causes.old.items ++ (if is_drawn then name ∷ [] else [])) }
{
    if is_drawn {
        causes.push(name)?;
    }
    Ok(())
}
