//! Laws on the definitions that the contracts of this crate cite. The functions do nothing.

ghost use Rattle.job_lint.specs.Clean.{CleanHasSearchedAll};

/// Where no line is to be printed, the searches ended: nothing was left open, except of rows whose answer is known to rest on the order of a lane.
pub fn clean_has_searched_all()
    ensures law { CleanHasSearchedAll }
{}
