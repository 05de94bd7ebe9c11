//! Which leads into a mark are connected without the mark.

use crate::lead::{Lead, is_at};
use compose::DesignMark;
use itv_base::NoMemory;
use std::alloc::Global;
use std::collections::HashMap;

// A direction of a lead: the number of the mark that it leads to, and the next one that begins at its mark.
#[derive(Clone, Copy)]
struct Arc {
    to: usize,
    next: Option<usize>,
}

// What a visit of all marks knows of a mark, with marks given by their numbers. All but the first of connected marks have a parent, from which they were reached.
#[derive(Clone, Copy)]
struct Visit {
    // The next arc to take.
    next: Option<usize>,
    parent: Option<usize>,
    // How many marks were visited before, if it was visited.
    place: Option<usize>,
    // The least place to which one lead goes from the mark, or from a mark that was reached from it.
    low: usize,
    // The first mark of its block below the parent.
    block: usize,
}

/// The leads of a design in blocks. Two leads of one mark are in one block exactly if the other leads connect their other ends without this mark, whichever way
/// they go.
#[derive(Drop)]
pub struct Blocks {
    numbers: HashMap<(u32, u32), usize>,
    visits: Vec<Visit>,
}

impl Blocks {
    /// The blocks of some leads. The answer is `NoMemory` if memory runs out.
    pub fn of(alloc: Global, leads: &[Lead]) -> Result<Blocks, NoMemory> {
        let mut blocks = Blocks {
            numbers: HashMap::new(alloc),
            visits: Vec::new(alloc),
        };
        blocks.find(alloc, leads)?;
        Ok(blocks)
    }

    /// Whether two of the leads are in one block.
    pub fn joins(&self, first: &Lead, other: &Lead) -> bool {
        match (self.block_of(first), self.block_of(other)) {
            (Some(first), Some(other)) => first == other,
            _ => false,
        }
    }

    // The block of a lead: that of its end that was visited later.
    fn block_of(&self, lead: &Lead) -> Option<usize> {
        let from = self.visit_of(lead.from)?;
        let to = self.visit_of(lead.to)?;
        if from.place? < to.place? {
            Some(to.block)
        } else {
            Some(from.block)
        }
    }

    fn visit_of(&self, mark: DesignMark) -> Option<&Visit> {
        self.visits.get(self.number_of(mark)?)
    }

    fn number_of(&self, mark: DesignMark) -> Option<usize> {
        self.numbers.get(&(mark.part, mark.mark)).copied()
    }

    // Finds the blocks of some leads, with no mark known.
    fn find(&mut self, alloc: Global, leads: &[Lead]) -> Result<(), NoMemory> {
        let mut arcs = Vec::new(alloc);
        for lead in leads {
            self.push_arcs(&mut arcs, lead)?;
        }
        let visited = visit_all(alloc, self.visits.as_mut_slice(), &arcs)?;
        for lead in leads {
            self.note_low(lead);
        }
        note_lows(self.visits.as_mut_slice(), &visited);
        note_blocks(self.visits.as_mut_slice(), &visited);
        Ok(())
    }

    // Puts the two arcs of a lead at the end, unless it leads from a mark to itself.
    fn push_arcs(&mut self, arcs: &mut Vec<Arc>, lead: &Lead) -> Result<(), NoMemory> {
        let from = self.numbered(lead.from)?;
        let to = self.numbered(lead.to)?;
        if !is_at(lead.from, lead.to) {
            push_arc(self.visits.as_mut_slice(), arcs, from, to)?;
            push_arc(self.visits.as_mut_slice(), arcs, to, from)?;
        }
        Ok(())
    }

    // The number of a mark. One that has none gets the next number.
    fn numbered(&mut self, mark: DesignMark) -> Result<usize, NoMemory> {
        if let Some(number) = self.number_of(mark) {
            return Ok(number);
        }
        let number = self.visits.len();
        self.numbers.insert((mark.part, mark.mark), number)?;
        self.visits.push(Visit {
            next: None,
            parent: None,
            place: None,
            low: number,
            block: number,
        })?;
        Ok(number)
    }

    // Notes at the end of a lead that was visited later the place of the other end.
    fn note_low(&mut self, lead: &Lead) {
        if let (Some(from), Some(to)) = (self.number_of(lead.from), self.number_of(lead.to)) {
            let place = place_of(self.visits.as_slice(), to);
            lower(self.visits.as_mut_slice(), from, place);
            let place = place_of(self.visits.as_slice(), from);
            lower(self.visits.as_mut_slice(), to, place);
        }
    }
}

fn push_arc(
    visits: &mut [Visit],
    arcs: &mut Vec<Arc>,
    from: usize,
    to: usize,
) -> Result<(), NoMemory> {
    let number = arcs.len();
    if let Some(visit) = visits.get_mut(from) {
        arcs.push(Arc {
            to,
            next: visit.next,
        })?;
        visit.next = Some(number);
    }
    Ok(())
}

// Visits all marks, each as soon as an arc leads to it, and gives their numbers in this order.
fn visit_all(alloc: Global, visits: &mut [Visit], arcs: &[Arc]) -> Result<Vec<usize>, NoMemory> {
    let mut visited = Vec::new(alloc);
    for root in 0..visits.len() {
        if is_new(visits, root) {
            enter(visits, &mut visited, root, None)?;
            visit_from(visits, &mut visited, root, arcs)?;
        }
    }
    Ok(visited)
}

// Visits the marks that are connected with a mark that was entered.
fn visit_from(
    visits: &mut [Visit],
    visited: &mut Vec<usize>,
    root: usize,
    arcs: &[Arc],
) -> Result<(), NoMemory> {
    let mut at = root;
    // Each step takes an arc, or leaves a mark for good.
    for _ in 0..=arcs.len().saturating_add(visits.len()) {
        match take_arc(visits, at, arcs) {
            Some(to) => {
                if is_new(visits, to) {
                    enter(visits, visited, to, Some(at))?;
                    at = to;
                }
            }
            None => match parent_of(visits, at) {
                Some(parent) => at = parent,
                None => return Ok(()),
            },
        }
    }
    Ok(())
}

// Enters a mark from its parent.
fn enter(
    visits: &mut [Visit],
    visited: &mut Vec<usize>,
    mark: usize,
    parent: Option<usize>,
) -> Result<(), NoMemory> {
    let place = visited.len();
    if let Some(visit) = visits.get_mut(mark) {
        visit.parent = parent;
        visit.place = Some(place);
        visit.low = place;
    }
    visited.push(mark)?;
    Ok(())
}

// Where the next arc of a mark leads, which is taken.
fn take_arc(visits: &mut [Visit], mark: usize, arcs: &[Arc]) -> Option<usize> {
    let visit = visits.get_mut(mark)?;
    let arc = arcs.get(visit.next?)?;
    visit.next = arc.next;
    Some(arc.to)
}

fn is_new(visits: &[Visit], mark: usize) -> bool {
    place_of(visits, mark).is_none()
}

fn place_of(visits: &[Visit], mark: usize) -> Option<usize> {
    visits.get(mark)?.place
}

fn parent_of(visits: &[Visit], mark: usize) -> Option<usize> {
    visits.get(mark)?.parent
}

// Lowers the least place of a mark to a place.
fn lower(visits: &mut [Visit], mark: usize, place: Option<usize>) {
    if let (Some(visit), Some(place)) = (visits.get_mut(mark), place) {
        if place < visit.low {
            visit.low = place;
        }
    }
}

// Notes the least places of marks at their parents. The marks are given in the order of their visits.
fn note_lows(visits: &mut [Visit], visited: &[usize]) {
    for mark in visited.iter().rev() {
        if let Some(visit) = visits.get(*mark).copied() {
            if let Some(parent) = visit.parent {
                lower(visits, parent, Some(visit.low));
            }
        }
    }
}

// Notes the blocks of marks. The marks are given in the order of their visits.
fn note_blocks(visits: &mut [Visit], visited: &[usize]) {
    for mark in visited {
        if let Some(block) = block_above(visits, *mark) {
            if let Some(visit) = visits.get_mut(*mark) {
                visit.block = block;
            }
        }
    }
}

// The block of the parent of a mark, if a lead goes from the mark, or from one that was reached from it, past the parent.
fn block_above(visits: &[Visit], mark: usize) -> Option<usize> {
    let visit = visits.get(mark)?;
    let parent = visits.get(visit.parent?)?;
    if visit.low < parent.place? {
        Some(parent.block)
    } else {
        None
    }
}
