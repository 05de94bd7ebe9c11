//! The bounds of a row that are printed, and from which its verdict and its slack follow.

ghost use Rattle.std.specs.Prelude.{◌≡◌};
ghost use Rattle.requirements.specs.Separations.{bound_of};
ghost use Rattle.explanations.specs.Answers.{both_of};

use explanations::RowFound;
use requirements::BothBounds;

/// Both bounds of a row. Its verdict and its slack follow from them.
pub fn both_of(found: &RowFound) -> BothBounds
    ensures least { result.least ≡ bound_of found.now.least }
    ensures greatest { result.greatest ≡ bound_of found.now.greatest }
    ensures both { result ≡ both_of found.now }
{
    BothBounds {
        least: found.least.bound(),
        greatest: found.greatest.bound(),
    }
}
