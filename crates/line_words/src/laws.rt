//! Laws of words that are numbers. The function does nothing. Its clauses hold of all words and all numbers.

ghost use Rattle.line_words.specs.Laws.{LongsInvert, NumbersInvert, OpensInvert};

/// Each number has one text, and a word reads as a number if and only if it is that text. This holds of numbers up to a
/// limit, of numbers of 64 bits with a sign, and of these numbers with the star.
pub fn numbers_invert()
    ensures numbers { NumbersInvert }
    ensures longs { LongsInvert }
    ensures opens { OpensInvert }
{}
