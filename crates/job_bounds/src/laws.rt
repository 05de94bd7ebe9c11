//! Laws of the reports that the job writes. The functions have no code; their contracts hold for all drawn networks.
#![tactic(auto, using(crate::proofs::WrittenLaws::written_is_shown, crate::proofs::WrittenLaws::written_is_bare))]

ghost use Rattle.job_bounds.specs.Laws.{BegunIsRight, WrittenIsAccepted, WrittenIsBare, WrittenIsChecked, WrittenIsShown};

/// A report with the lines of proofs shows each of its numbers by them.
pub fn written_is_shown()
    ensures law { WrittenIsShown }
{}

/// A report without the lines of proofs is right, and such lines exist for each of its numbers.
pub fn written_is_bare()
    ensures law { WrittenIsBare }
{}

/// In a report with the lines of proofs, each line meets the check.
pub fn written_is_checked()
    ensures law { WrittenIsChecked }
{}

/// The check accepts the text of a report with the lines of proofs, if the names of the events and the ranges of the rows have their form.
pub fn written_is_accepted()
    ensures law { WrittenIsAccepted }
{}

/// If a put failed, a front of some text is there. The text is of lines that begin a right report, with the lines of proofs or without them.
pub fn begun_is_right()
    ensures law { BegunIsRight }
{}
