//! Laws of the definitions that the contracts of this crate cite. The function has no code.

ghost use Rattle.std.specs.Prelude.{◌≡◌, ℕ, ℤ, List};
ghost use Rattle.edge_clauses.specs.Lines.{ClauseLine};
ghost use Rattle.falling.specs.declared.view.View.{View};
ghost use Rattle.line_words.specs.Lines.{ended};
ghost use Rattle.clause_texts.specs.Text.{SpellsClause, claim_text, view_text};

/// At most one line of a proof has a given text. No line of a proof has the text of one of the two lines before a proof.
pub fn clause_texts_differ()
    ensures lines { (text : List ℕ) → (a b : ClauseLine) → SpellsClause text a → SpellsClause text b → a ≡ b }
    ensures views { (text : List ℕ) → (line : ClauseLine) → (view : View) → SpellsClause text line → ended text ≡ view_text view → ⊥ }
    ensures claims { (text : List ℕ) → (line : ClauseLine) → (claim : ℤ) → SpellsClause text line → ended text ≡ claim_text claim → ⊥ }
{}
