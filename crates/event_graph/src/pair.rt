//! Pairs of events.

ghost use Rattle.std.specs.Prelude.{◌≡◌};

use itv_base::EventId;

/// Two events. Their separation is the time of `to` less the time of `from`.
#[derive(Clone, Copy)]
pub struct Pair {
    pub from: EventId,
    pub to: EventId,
}

impl Pair {
    /// The pair the other way round. Minus its greatest separation is the least separation of this pair.
    pub fn reversed(self) -> Pair
        ensures pair { result ≡ record { from = self.to; to = self.from } }
    {
        Pair {
            from: self.to,
            to: self.from,
        }
    }
}
