//! What warnings are about.

use crate::warning::DrawnPlace;
use compose::DesignMark;
use origin::Origin;

/// What a warning is about. Parts, nets, edges and keys are numbered from 0.
#[derive(Clone, Copy)]
pub enum About {
    /// The whole design.
    Nothing,
    Place(DrawnPlace),
    Mark(DesignMark),
    /// Two places. The earlier rule stands first.
    Two(DrawnPlace, DrawnPlace),
    /// A mark, and what it follows.
    Follows {
        mark: DesignMark,
        by: DrawnPlace,
    },
    /// A mark that follows a driver through a pin or a wire, and an edge of its own sheet.
    Driven {
        mark: DesignMark,
        by: Origin,
        edge: Origin,
    },
    /// A mark that follows two drivers, through these pins.
    Drivers {
        mark: DesignMark,
        first: Origin,
        other: Origin,
    },
    /// A key of the sheet of a part: its number among the near keys of the sheet.
    SheetKey {
        part: u32,
        key: u64,
    },
    /// A key of the netlist: its number among the stray keys of the netlist.
    NetlistKey(u64),
    Net(u64),
    /// So many things on the sheet of a part.
    Count {
        part: u32,
        count: u64,
    },
}
