//! Tables of the first two leads into marks.

ghost use Rattle.std.specs.Prelude.{◌≡◌, ◌++◌, ◌∷◌, [], List, OnOk};
ghost use Rattle.std.specs.Option.{option_copied};
ghost use Rattle.lint.specs.declared.lead.Lead.{Lead as LeadSeen};
ghost use Rattle.lint.specs.Step.{AreFirstTwo, differs, met_in};

use crate::firsts::{FirstLeads, first_at, note_first};
use crate::lead::{Lead, is_at};
use itv_base::NoMemory;
use std::alloc::Global;

/// For each mark the first of some leads into it, and the first one that comes from another mark than this one.
#[derive(Drop)]
pub struct FirstTwo {
    firsts: FirstLeads,
    seconds: FirstLeads,
}

impl FirstTwo {
    /// Tables of no leads.
    pub fn new(alloc: Global) -> FirstTwo
        ensures none { AreFirstTwo result [] }
    {
        FirstTwo {
            firsts: FirstLeads::new(alloc),
            seconds: FirstLeads::new(alloc),
        }
    }
}

/// Notes a lead after others.
pub fn note_lead(tables: &mut FirstTwo, lead: &Lead) -> Result<(), NoMemory>
    ensures noted { OnOk result ((leads : List LeadSeen) → AreFirstTwo tables.old leads → AreFirstTwo tables.new (leads ++ lead.now ∷ [])) }
{
    let second = differs(first_at(&tables.firsts, lead.to), lead);
    note_first(&mut tables.seconds, second, lead)?;
    note_first(&mut tables.firsts, true, lead)
}

// Whether a lead comes from another mark than the first one, if there is a first one.
fn differs(first: Option<&Lead>, lead: &Lead) -> bool
    ensures { result ≡ differs (option_copied first.entry) lead.now }
{
    match first {
        Some(first) => !is_at(lead.from, first.from),
        None => false,
    }
}

/// The first of the noted leads that a lead meets: it goes into the same mark, from another one.
pub fn first_met<'a>(tables: &'a FirstTwo, lead: &Lead) -> Option<&'a Lead>
    ensures { option_copied result ≡ met_in tables.now lead.now }
{
    let first = first_at(&tables.firsts, lead.to)?;
    if is_at(first.from, lead.from) {
        first_at(&tables.seconds, lead.to)
    } else {
        Some(first)
    }
}
