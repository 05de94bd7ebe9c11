//! Laws of the definitions that the contracts of this crate cite. The functions do nothing.

ghost use Rattle.std.specs.Prelude.{◌≡◌};
ghost use Rattle.event_graph.specs.Proof.{ProofLine};
ghost use Rattle.certificate.specs.Text.{IsProofLine, proof_line};

/// Two different lines of proofs have different texts.
pub fn line_texts_differ()
    ensures { (a b : ProofLine) → IsProofLine a → IsProofLine b → proof_line a ≡ proof_line b → a ≡ b }
{}
