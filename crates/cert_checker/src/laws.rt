//! Laws of the faults of lines. Each is the contract of a function that does nothing.

ghost use Rattle.cert_checker.specs.Laws.{LinesAreReadOneByOne, NoFaultIsRead};

/// The reading of a proof accepts a next line if and only if the line has no fault, and then the line leads to the
/// cases after it.
pub fn lines_are_read_one_by_one()
    ensures law { LinesAreReadOneByOne }
{}

/// After lines that were read, one more line is read if and only if it has no fault, and then it leads to the cases
/// after it.
pub fn no_fault_is_read()
    ensures law { NoFaultIsRead }
{}
