//! The turns that a search takes, and what it keeps.

// How many things a turn looks at.
const LOOKS: u64 = 4;

/// The turns that a search has taken, and the items that it has kept, with the room for them.
///
/// Each step of the search is a turn, and so are each 4 things that it looks at: literals, ways, entries of the trail,
/// sides of choices, words of 64 flags. A fall of a bound is several. An item is a line of the proof, a step or a literal of a line, or a clause, a
/// literal or a way that is kept. The room is for the items and for the entries of the trail.
#[derive(Drop)]
pub struct Meter {
    turns: u64,
    /// The things that were looked at and are no turn yet.
    looks: u64,
    items: u64,
    room: u64,
}

impl Meter {
    /// No turns and no items, and room for so many.
    pub fn new(room: u64) -> Meter {
        Meter {
            turns: 0,
            looks: 0,
            items: 0,
            room,
        }
    }

    /// Takes this many turns.
    pub fn take(&mut self, turns: usize) {
        self.turns = self.turns.saturating_add(turns as u64);
    }

    /// Looks at this many things.
    pub fn look(&mut self, things: usize) {
        let looks = self.looks.saturating_add(things as u64);
        self.turns = self.turns.saturating_add(looks / LOOKS);
        self.looks = looks % LOOKS;
    }

    /// Keeps this many items.
    pub fn keep(&mut self, items: usize) {
        self.items = self.items.saturating_add(items as u64);
    }

    /// The turns so far.
    pub fn turns(&self) -> u64 {
        self.turns
    }

    /// Whether the items and this many entries of the trail fill the room.
    pub fn is_full(&self, entries: usize) -> bool {
        self.room <= self.items.saturating_add(entries as u64)
    }
}
