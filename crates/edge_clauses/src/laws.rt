//! Laws of proofs by clauses. Each is the contract of a function that does nothing.

ghost use Rattle.edge_clauses.specs.Laws.{ClaimCanRise, ClauseProofBounds, ClauseProofOfNothing, NegatedProofBounds, NegatedProofOfNothing, ProofAndTimesClose, RaisedKeepsChecking, StartIsChecking, TakenLineKeepsChecking};

/// If the claim of a proof is below the far line, no satisfying times have a greater separation of the pair.
pub fn clause_proof_bounds()
    ensures law { ClauseProofBounds }
{}

/// A proof with a claim below minus the far line shows that no times satisfy.
pub fn clause_proof_of_nothing()
    ensures law { ClauseProofOfNothing }
{}

/// A proof for the reversed pair in the negated network bounds the pair.
pub fn negated_proof_bounds()
    ensures law { NegatedProofBounds }
{}

/// A proof in the negated network with a claim below minus the far line shows that no times satisfy.
pub fn negated_proof_of_nothing()
    ensures law { NegatedProofOfNothing }
{}

/// Lines that lead from a state to another still do so if the goal claims more.
pub fn claim_can_rise()
    ensures law { ClaimCanRise }
{}

/// A proof and satisfying times that attain its claim give the greatest separation.
pub fn proof_and_times_close()
    ensures law { ProofAndTimesClose }
{}

/// `IsChecking` holds of a checker at the start.
pub fn start_is_checking()
    ensures law { StartIsChecking }
{}

/// `IsChecking` still holds after a checker takes a line.
pub fn taken_line_keeps_checking()
    ensures law { TakenLineKeepsChecking }
{}

/// `IsChecking` still holds after a checker raises its claim.
pub fn raised_keeps_checking()
    ensures law { RaisedKeepsChecking }
{}
