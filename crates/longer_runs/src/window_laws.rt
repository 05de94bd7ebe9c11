//! What the network of some cycles says of every longer run. The functions do nothing; each law is the contract of one.

ghost use Rattle.longer_runs.specs.WindowLaws.{HoldsFromStays, HoldsInEachWindow, InconsistentStays, PassesStay, WindowsSatisfy};

/// The times of some cycles of a longer run, from any cycle on, satisfy the network of so many cycles.
pub fn windows_satisfy()
    ensures law { WindowsSatisfy }
{}

/// If no times satisfy the network of some cycles, no times satisfy the network of a longer run.
pub fn inconsistent_stays()
    ensures law { InconsistentStays }
{}

/// A range that a row keeps in a cycle is kept in every longer run, in each cycle with as many cycles before it and after it.
pub fn holds_in_each_window()
    ensures law { HoldsInEachWindow }
{}

/// A range that a row keeps in each of some cycles, from one on, is kept from there on in every longer run.
pub fn holds_from_stays()
    ensures law { HoldsFromStays }
{}

/// If each row exists in one of some cycles and each requirement is met over them, each is met over every greater number of cycles.
pub fn passes_stay()
    ensures law { PassesStay }
{}
