//! Writers of the lines of a proof while it is found.

ghost use Rattle.std.specs.Prelude.{◌≡◌, ℕ, List, [], ◌∷◌, ◌++◌, OnOk, OnErr};
ghost use Rattle.itv_base.specs.Outside.{FaultCounted};
ghost use Rattle.event_graph.specs.Proof.{Loop, Path, ProofLine, Split};

use itv_base::EdgeName;
use thiserror::Error;

/// A line of a proof was not written whole.
#[derive(Clone, Copy, Debug, Error)]
#[error("a line of a proof could not be written")]
pub struct ScribeFailed;

/// Takes the lines of a proof, one after another. Each call writes its line, or fails. After a failure the scribe has
/// some front of the line at its end, and its count of faults rose.
pub trait Scribe {
    /// How often the scribe has failed. The count never falls.
    ghost faults: { Self → ℕ };

    /// The scribe grew by just these lines.
    ghost Grew: { Self → List ProofLine → Self → Type 0 };

    /// The scribe failed in the last of these lines, and has the lines before it.
    ghost WasCut: { Self → List ProofLine → Self → Type 0 };

    /// Writes that a case is split by the causes of a constraint.
    fn split(&mut self, constraint: u32) -> Result<(), ScribeFailed>
        ensures grew { OnOk result (Grew self.old (Split constraint ∷ []) self.new) }
        ensures cut { OnErr result (WasCut self.old (Split constraint ∷ []) self.new) }
        ensures rose { OnErr result (FaultCounted (faults self.old) (faults self.new)) };

    /// Writes that a case is closed by a path.
    fn cut_path(&mut self, edges: &[EdgeName]) -> Result<(), ScribeFailed>
        ensures grew { OnOk result (Grew self.old (Path edges.now ∷ []) self.new) }
        ensures cut { OnErr result (WasCut self.old (Path edges.now ∷ []) self.new) }
        ensures rose { OnErr result (FaultCounted (faults self.old) (faults self.new)) };

    /// Writes that a case is closed by a loop.
    fn cut_loop(&mut self, edges: &[EdgeName]) -> Result<(), ScribeFailed>
        ensures grew { OnOk result (Grew self.old (Loop edges.now ∷ []) self.new) }
        ensures cut { OnErr result (WasCut self.old (Loop edges.now ∷ []) self.new) }
        ensures rose { OnErr result (FaultCounted (faults self.old) (faults self.new)) };

    /// The scribe grows by no lines if nothing is written.
    ghost grew_none: { (s : Self) → Grew s [] s };

    /// The scribe grows by some lines and then by more of them.
    ghost grew_more: { (s t u : Self) (xs ys : List ProofLine) → Grew s xs t → Grew t ys u → Grew s (xs ++ ys) u };

    /// The scribe grows by some lines, and then fails in others.
    ghost cut_after: { (s t u : Self) (xs ys : List ProofLine) → Grew s xs t → WasCut t ys u → WasCut s (xs ++ ys) u };

    /// Lines that are written leave the count of faults as it is.
    ghost grew_faults: { (s t : Self) (xs : List ProofLine) → Grew s xs t → faults t ≡ faults s };
}

/// Writes nothing down, and never fails.
#[derive(Clone, Copy)]
pub struct Quiet;

impl Scribe for Quiet {
    ghost use Rattle.std.proofs.Common.{refl};

    ghost faults = { λ _. 0 };

    ghost Grew = { λ _ _ _. Unit {0} };

    ghost WasCut = { λ _ _ _. Unit {0} };

    fn split(&mut self, _constraint: u32) -> Result<(), ScribeFailed> {
        Ok(())
    }

    fn cut_path(&mut self, _edges: &[EdgeName]) -> Result<(), ScribeFailed> {
        Ok(())
    }

    fn cut_loop(&mut self, _edges: &[EdgeName]) -> Result<(), ScribeFailed> {
        Ok(())
    }

    ghost grew_none = { λ s. tt };

    ghost grew_more = { λ s t u xs ys p q. tt };

    ghost cut_after = { λ s t u xs ys p q. tt };

    ghost grew_faults = { λ s t xs p. refl };
}
