//! The separations that are asked for.

use itv_base::{EventId, Listing, RowKind};
use origin::Origin;

/// A separation that is asked for: from which event to which, what is wanted of it, and what draws it, which is an edge of a sheet
/// or of the netlist.
#[derive(Clone, Copy)]
pub struct Row {
    pub kind: RowKind,
    pub from: EventId,
    pub to: EventId,
    pub origin: Origin,
}

/// Rows in order.
pub type Rows = Listing<Row>;
