//! What the drawing of a counterexample is read as, if it is read as a design. The functions do nothing; each law is the contract
//! of one.

ghost use Rattle.redraw_laws.specs.DesignAgain.{RedrawnBreaks, RedrawnIsRead};

/// The text of a row drawn at some times is read as a design without a refusal, if no two events have one name. The times that
/// satisfy its network are the drawn times plus one number. Its one row demands what the drawn row demands.
pub fn redrawn_is_read()
    ensures law { RedrawnIsRead }
{}

/// If the separation at the drawn times is past an end that is not the widest, all satisfying times of the read network break that
/// demand.
pub fn redrawn_breaks()
    ensures law { RedrawnBreaks }
{}
