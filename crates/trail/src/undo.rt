//! What a level overwrites, and how it is put back.

ghost use Rattle.std.specs.Prelude.{◌≡◌, ◌<◌, ℕ, All, length};
ghost use Rattle.trail.specs.Step.Undo.{slots_before};

use crate::stamp::Stamp;

/// A stamp, and the level that set it: the first graph is level 0.
#[derive(Clone, Copy)]
pub struct Slot {
    pub stamp: Stamp,
    pub level: u32,
}

impl Slot {
    /// A slot that no level has set.
    pub const UNSET: Slot = Slot {
        stamp: Stamp {
            label: None,
            parent: None,
        },
        level: 0,
    };
}

/// A slot as it was before a level first set it.
#[derive(Clone, Copy)]
pub struct Saved {
    pub slot: u32,
    pub was: Slot,
}

/// Where a level began: how many edges and how many saved slots there were.
#[derive(Clone, Copy)]
pub struct LevelStart {
    pub edges: usize,
    pub saved: usize,
}

/// Puts saved slots back, the last saved first.
pub fn put_back(slots: &mut [Slot], saved: &[Saved])
    requires { All (λ e. e.slot < length slots.old) saved.now }
    ensures { slots.new ≡ slots_before saved.now slots.old }
{
    let mut left = saved;
    while let Some((last, rest)) = left.split_last() {
        slots[last.slot as usize] = last.was;
        left = rest;
    }
}
