//! Pieces of lines.

use origin::Origin;

/// What draws something. An edge or a lane is on the sheet of the part of this name; for a pin or a wire the part has no meaning.
#[derive(Clone, Copy)]
pub struct PartPlace<'a> {
    pub part: &'a str,
    pub origin: Origin,
}

/// A piece of a line.
#[derive(Clone, Copy)]
pub enum Piece<'a> {
    /// Bytes as they are.
    Key(&'a [u8]),
    /// Bytes without those that can't be printed.
    Printed(&'a [u8]),
    /// What draws something, after the name of its part.
    Place(PartPlace<'a>),
    /// What draws something, without a part.
    Drawn(Origin),
    /// The name of a part and a mark of its sheet.
    Mark(&'a str, Option<u8>),
    /// Picoseconds.
    Time(i64),
    /// Minus a number of picoseconds.
    Minus(i64),
    /// A number from 0.
    Count(u64),
}

/// The places at the end of a line, whose notes or texts are printed.
#[derive(Clone, Copy)]
pub enum Told<'a> {
    Nothing,
    One(PartPlace<'a>),
    Two(PartPlace<'a>, PartPlace<'a>),
}
