//! Laws of numbers as they are drawn. Each is the contract of a function that does nothing.

ghost use Rattle.drawn_numbers.specs.Laws.{CausesAreAllDrawn, NumbersAreSet};

/// The causes of a number are all causes that it draws, and no others. Another range for these causes is another range for each of them, and
/// leaves all else of the network as it is.
pub fn numbers_are_set()
    ensures causes { CausesAreAllDrawn }
    ensures set { NumbersAreSet }
{}
