//! How the drawing of a counterexample is read. Each law is the contract of a function that does nothing.

ghost use Rattle.redraw_laws.specs.ReadAgain.{RedrawnIsSheet};
ghost use Rattle.redraw_laws.specs.Chain.{TimesOfChain};

/// The text of a row, drawn at some times, is read as a sheet without a fault, if no two events have one name.
pub fn redrawn_is_sheet()
    ensures law { RedrawnIsSheet }
{}

/// Times satisfy a chain of events, each exactly as far after the event before it as it is drawn, if and only if they are the drawn times
/// plus one number.
pub fn times_of_chain()
    ensures law { TimesOfChain }
{}
