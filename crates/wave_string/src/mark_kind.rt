//! The kinds of marks.

ghost use Rattle.std.specs.Prelude.{◌≡◌, ◌↔◌, ◌⊎◌, IsFalse};
ghost use Rattle.wave_string.specs.Kinds.{may_join};

/// What a wave draws at the place of a mark.
#[derive(Clone, Copy)]
pub enum MarkKind {
    /// An edge from low to high, or a brick of a positive clock.
    Rise,
    /// An edge from high to low, or a brick of a negative clock.
    Fall,
    /// Any other change, and the border between two values of a bus.
    Change,
    /// Nothing changes.
    Steady,
    /// The first brick of a wave that does not begin with a clock, or a place past the last brick.
    Bare,
}

/// Whether two marks of these kinds may be joined. A rise may not be joined to a fall; any other two kinds may be joined.
pub fn may_join(a: MarkKind, b: MarkKind) -> bool
    ensures value { result ≡ may_join a b }
    ensures only_rise_with_fall { IsFalse result ↔
        ((a ≡ MarkKind.Rise × b ≡ MarkKind.Fall) ⊎ (a ≡ MarkKind.Fall × b ≡ MarkKind.Rise)) }
{
    !matches!(
        (a, b),
        (MarkKind::Rise, MarkKind::Fall) | (MarkKind::Fall, MarkKind::Rise)
    )
}
