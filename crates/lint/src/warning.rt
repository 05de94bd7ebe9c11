//! What may say something else than was meant.

ghost use Rattle.std.specs.Prelude.{◌≡◌};
ghost use Rattle.origin.specs.declared.origin.Origin.TheVariants.{Wire};
ghost use Rattle.lint.specs.Lists.{netlist_part, spot};
ghost use Rattle.lint.specs.Kinds.{warning_of_place, warning_of_two};

use crate::about::About;
use crate::warning_word::WarningWord;
use origin::Origin;

/// What draws something. It is an edge or a lane of the sheet of a part, and `part` is the number of the part, from 0. Or it is a pin of a net
/// or an edge of the netlist, and then `part` has no meaning.
#[derive(Clone, Copy)]
pub struct DrawnPlace {
    pub part: u32,
    pub origin: Origin,
}

impl DrawnPlace {
    /// An edge of the netlist, given by its number from 0.
    pub(crate) fn wire(n: u64) -> DrawnPlace
        ensures { result ≡ spot netlist_part (Wire n) }
    {
        DrawnPlace {
            part: 0,
            origin: Origin::Wire(n),
        }
    }
}

/// What may say something else than was meant: a word, and what it is about.
#[derive(Clone, Copy)]
pub struct Warning {
    pub word: WarningWord,
    pub about: About,
}

impl Warning {
    /// A warning of a place.
    pub(crate) fn at(word: WarningWord, place: DrawnPlace) -> Warning
        ensures { result ≡ warning_of_place word place }
    {
        Warning {
            word,
            about: About::Place(place),
        }
    }

    /// A warning of two places.
    pub(crate) fn of_two(word: WarningWord, first: DrawnPlace, other: DrawnPlace) -> Warning
        ensures { result ≡ warning_of_two word first other }
    {
        Warning {
            word,
            about: About::Two(first, other),
        }
    }
}
