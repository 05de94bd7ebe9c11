//! The origins of causes.

use itv_base::Listing;
use origin::Origin;

/// The origins of the causes of constraints: a list for each constraint, with an origin for each cause, both in order.
pub type Origins = Listing<Listing<Origin>>;
