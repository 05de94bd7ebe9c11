//! What a search for a bound aims at, and the best separation that it has attained.

ghost use Rattle.std.specs.Prelude.{◌≡◌, length};

use itv_base::EventId;

/// The pair whose greatest separation the search is for, and the separation of the times that the search starts from, in
/// picoseconds.
#[derive(Clone, Copy)]
pub struct Aim {
    pub from: EventId,
    pub to: EventId,
    pub known: i64,
}

/// The greatest separation attained so far, in picoseconds, and satisfying times that have it.
#[derive(Drop)]
pub struct Best {
    pub value: i64,
    pub times: Vec<i64>,
}

impl Best {
    /// Takes other times, one per event, and their separation.
    pub fn take(&mut self, value: i64, times: &[i64])
        requires { length times.now ≡ length self.old.times.items }
        ensures value { self.new.value ≡ value }
        ensures times { self.new.times.items ≡ times.now }
    {
        self.value = value;
        self.times.copy_from_slice(times);
    }
}
