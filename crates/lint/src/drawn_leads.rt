//! Leads by the edges that draw them.

use crate::lead::Lead;
use crate::warning::DrawnPlace;
use itv_base::NoMemory;
use origin::Origin;
use std::alloc::Global;
use std::collections::HashMap;

/// For each edge of the sheet of a part and for each edge of the netlist, the first lead that it draws.
#[derive(Drop)]
pub struct DrawnLeads {
    edges: HashMap<(u32, u64), Lead>,
    wires: HashMap<u64, Lead>,
}

impl DrawnLeads {
    /// The first of some leads that each edge draws. The answer is `NoMemory` if memory runs out.
    pub fn of(alloc: Global, leads: &[Lead]) -> Result<DrawnLeads, NoMemory> {
        let mut drawn = DrawnLeads {
            edges: HashMap::new(alloc),
            wires: HashMap::new(alloc),
        };
        drawn.note_all(leads)?;
        Ok(drawn)
    }

    /// The first lead that an edge draws, if it draws one.
    pub fn get(&self, place: DrawnPlace) -> Option<&Lead> {
        match place.origin {
            Origin::Edge(n) => self.edges.get(&(place.part, n)),
            Origin::Wire(n) => self.wires.get(&n),
            Origin::Lane(_) | Origin::Pin { .. } => None,
        }
    }

    fn note_all(&mut self, leads: &[Lead]) -> Result<(), NoMemory> {
        for lead in leads {
            self.note(lead)?;
        }
        Ok(())
    }

    // Notes a lead, unless its edge has one.
    fn note(&mut self, lead: &Lead) -> Result<(), NoMemory> {
        match lead.origin {
            Origin::Edge(n) => note_edge(&mut self.edges, (lead.to.part, n), lead),
            Origin::Wire(n) => note_wire(&mut self.wires, n, lead),
            Origin::Lane(_) | Origin::Pin { .. } => Ok(()),
        }
    }
}

fn note_edge(
    edges: &mut HashMap<(u32, u64), Lead>,
    edge: (u32, u64),
    lead: &Lead,
) -> Result<(), NoMemory> {
    if !edges.contains_key(&edge) {
        edges.insert(edge, *lead)?;
    }
    Ok(())
}

fn note_wire(wires: &mut HashMap<u64, Lead>, wire: u64, lead: &Lead) -> Result<(), NoMemory> {
    if !wires.contains_key(&wire) {
        wires.insert(wire, *lead)?;
    }
    Ok(())
}
