//! Writers of the lines of a derivation while it is found.

ghost use Rattle.std.specs.Prelude.{◌≡◌, ℕ, List, [], ◌∷◌, ◌++◌, OnOk, OnErr};
ghost use Rattle.itv_base.specs.Outside.{FaultCounted};
ghost use Rattle.falling.specs.declared.line.FallLine.{FallLine};
ghost use Rattle.falling.specs.declared.line.Reason.TheVariants.{ByEdge, ByLatest};

use itv_base::{EdgeName, EventId};
use thiserror::Error;

/// A line of a derivation was not noted whole.
#[derive(Clone, Copy, Debug, Error)]
#[error("a line of a derivation could not be noted")]
pub struct FallScribeFailed;

/// Takes the lines of a derivation, one after another. Each call notes its line, or fails. After a failure the
/// scribe has some front of the line at its end, and its count of faults rose.
pub trait FallScribe {
    /// How often the scribe has failed. The count never falls.
    ghost faults: { Self → ℕ };

    /// The scribe grew by just these lines.
    ghost Grew: { Self → List FallLine → Self → Type 0 };

    /// The scribe failed in the last of these lines, and has the lines before it.
    ghost WasCut: { Self → List FallLine → Self → Type 0 };

    /// Notes that an event falls to a value, in picoseconds, by an always-edge.
    fn fall(&mut self, event: EventId, value: i64, edge: EdgeName) -> Result<(), FallScribeFailed>
        ensures grew { OnOk result (Grew self.old
            ((record { event = event; value = value; reason = ByEdge edge }) ∷ []) self.new) }
        ensures cut { OnErr result (WasCut self.old
            ((record { event = event; value = value; reason = ByEdge edge }) ∷ []) self.new) }
        ensures rose { OnErr result (FaultCounted (faults self.old) (faults self.new)) };

    /// Notes that an event falls to a value, in picoseconds, by the latest constraint of a number.
    fn late(&mut self, event: EventId, value: i64, constraint: u32) -> Result<(), FallScribeFailed>
        ensures grew { OnOk result (Grew self.old
            ((record { event = event; value = value; reason = ByLatest constraint }) ∷ []) self.new) }
        ensures cut { OnErr result (WasCut self.old
            ((record { event = event; value = value; reason = ByLatest constraint }) ∷ []) self.new) }
        ensures rose { OnErr result (FaultCounted (faults self.old) (faults self.new)) };

    /// The scribe grows by no lines if nothing is noted.
    ghost grew_none: { (s : Self) → Grew s [] s };

    /// The scribe grows by some lines and then by more of them.
    ghost grew_more: { (s t u : Self) (xs ys : List FallLine) → Grew s xs t → Grew t ys u → Grew s (xs ++ ys) u };

    /// The scribe grows by some lines, and then fails in others.
    ghost cut_after: { (s t u : Self) (xs ys : List FallLine) → Grew s xs t → WasCut t ys u → WasCut s (xs ++ ys) u };

    /// Lines that are noted leave the count of faults as it is.
    ghost grew_faults: { (s t : Self) (xs : List FallLine) → Grew s xs t → faults t ≡ faults s };
}

/// Notes nothing, and never fails.
#[derive(Clone, Copy)]
pub struct QuietFall;

impl FallScribe for QuietFall {
    ghost use Rattle.std.proofs.Common.{refl};

    ghost faults = { λ _. 0 };

    ghost Grew = { λ _ _ _. Unit {0} };

    ghost WasCut = { λ _ _ _. Unit {0} };

    fn fall(
        &mut self,
        _event: EventId,
        _value: i64,
        _edge: EdgeName,
    ) -> Result<(), FallScribeFailed> {
        Ok(())
    }

    fn late(
        &mut self,
        _event: EventId,
        _value: i64,
        _constraint: u32,
    ) -> Result<(), FallScribeFailed> {
        Ok(())
    }

    ghost grew_none = { λ s. tt };

    ghost grew_more = { λ s t u xs ys p q. tt };

    ghost cut_after = { λ s t u xs ys p q. tt };

    ghost grew_faults = { λ s t xs p. refl };
}
