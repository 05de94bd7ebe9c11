//! The separations that a sheet asks for.

use itv_base::{Listing, RowKind};
use origin::Origin;

/// A separation that is asked for: from a mark to a mark, both by number; how many cycles the first stands before the second; and what
/// draws it.
#[derive(Clone, Copy)]
pub struct SheetRow {
    pub kind: RowKind,
    pub from: u32,
    pub to: u32,
    pub shift: u32,
    pub origin: Origin,
}

/// Rows in the order of their edges.
pub type SheetRows = Listing<SheetRow>;
