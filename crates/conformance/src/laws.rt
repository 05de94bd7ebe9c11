//! Laws on what the jobs write, over the definitions alone. The functions do nothing.

ghost use Rattle.conformance.specs.Laws.{NumbersAreAll, OwnReportIsAccepted};

/// If job bounds writes a report with the lines of proofs for the design of some files, job check accepts it for the
/// same files.
pub fn own_report_is_accepted()
    ensures law { OwnReportIsAccepted }
{}

/// The numbers of a drawing, which job margin goes through, are all: each cause is drawn by one of them, or by the order of a lane.
pub fn numbers_are_all()
    ensures law { NumbersAreAll }
{}
