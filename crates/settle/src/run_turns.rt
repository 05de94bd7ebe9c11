//! The turns of a run.

ghost use Rattle.std.specs.Prelude.{◌≡◌, ◌+◌, ◌-◌, ◌*◌, ◌^◌, ◌≤◌, min};

// A run takes at most as many turns as this many searches that take all of theirs.
const FULL_SEARCHES: u64 = 4;

/// How many turns each search of a run may take, and how many all searches of the run may still take together.
#[derive(Clone, Copy)]
pub struct RunTurns {
    each: u64,
    left: u64,
}

impl RunTurns {
    /// The turns of a run in which each search takes at most this many. Together the searches take at most four times as many, or as many as 64 bits can
    /// say, whichever is less.
    pub fn of(each: u64) -> RunTurns
        ensures each { result.each ≡ each }
        ensures left { result.left ≤ 4 * each }
        ensures saturates { result.left ≡ min (4 * each) (2 ^ 64 - 1) }
    {
        RunTurns {
            each,
            left: each.saturating_mul(FULL_SEARCHES),
        }
    }

    /// How many turns the next search may take: as many as each search, or those that are left, whichever are less.
    pub fn next(self) -> u64
        ensures most { result ≤ self.each }
        ensures left { result ≤ self.left }
        ensures least { result ≡ min self.each self.left }
    {
        self.each.min(self.left)
    }

    /// Takes the turns that a search took.
    pub fn take(&mut self, taken: u64)
        requires taken { taken ≤ self.old.left }
        ensures each { self.new.each ≡ self.old.each }
        ensures left { self.new.left + taken ≡ self.old.left }
    {
        self.left -= taken;
    }
}
