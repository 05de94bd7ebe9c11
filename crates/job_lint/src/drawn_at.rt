//! Places in a drawn network.

use itv_base::EventId;
use origin::Origin;

/// What draws something in a drawn network. An edge or a lane is on the sheet of the part of `event`; for a pin or a wire that part has no meaning.
#[derive(Clone, Copy)]
pub struct DrawnAt {
    pub event: EventId,
    pub origin: Origin,
}
