//! The marks of a sheet.

use itv_base::Listing;
use wave_string::MarkKind;

/// The most marks that a sheet can have: so many characters may be a mark.
pub const MAX_MARKS: u32 = 93;

/// A mark on a lane: the lane's number from 0, the place of its character in the lane's `node` from 0, the character itself,
/// and what the lane's wave draws there.
#[derive(Clone, Copy)]
pub struct Mark {
    pub lane: u64,
    pub place: u64,
    pub name: u8,
    pub kind: MarkKind,
}

/// Marks in order, lane by lane and then by place.
pub type Marks = Listing<Mark>;
