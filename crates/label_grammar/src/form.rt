//! What is read of a label before its ends are looked at.

ghost use Rattle.std.specs.Prelude.{IsTrue};
ghost use Rattle.itv_base.specs.Numerals.{is_numeral};

use crate::label::Kind;

/// A whole number of any size, as it is written.
#[derive(Clone, Copy)]
pub struct Number<'a> {
    pub is_negative: bool,
    pub digits: &'a str,
    ghost well_written: { IsTrue (is_numeral digits.now) },
}

/// The two ends of a label. An open end is `None`.
#[derive(Clone, Copy)]
pub struct EndPair<'a> {
    pub low: Option<Number<'a>>,
    pub high: Option<Number<'a>>,
}

/// What gives the ends of a label of version 2: the two ends, or the name of a parameter.
#[derive(Clone, Copy)]
pub enum WrittenSpan<'a> {
    Fixed(EndPair<'a>),
    Named(&'a str),
}

/// A label as it is written. Its ends may be of any size and in any order. `T` is the type of what gives the ends.
#[derive(Clone, Copy)]
pub struct Form<'a, T> {
    pub kind: Kind,
    pub shift: u32,
    pub tag: Option<&'a str>,
    pub written: Option<T>,
    pub note: Option<&'a str>,
}
