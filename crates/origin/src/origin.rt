//! Where a cause or a row comes from.

ghost use Rattle.std.specs.Prelude.{◌≡◌};
ghost use Rattle.origin.specs.Order.{is_lane};

/// What draws a cause of a constraint, or a row. All numbers count from 0.
///
/// The part of a lane or of an edge is not kept. It is the part of the constraint's target, or of the row's events.
#[derive(Clone, Copy)]
pub enum Origin {
    /// The order of the marks on the lane with this number.
    Lane(u64),
    /// The edge with this number of the part's sheet. Edges that are comments count too.
    Edge(u64),
    /// A pin of a net, which the driver of the net drives: the number of the net, and the number of the pin among the
    /// pins of the net.
    Pin { net: u64, pin: u64 },
    /// The edge with this number of the netlist. Edges that are comments count too.
    Wire(u64),
}

impl Origin {
    /// Whether the origin is the order of the marks on a lane.
    pub fn is_lane(self) -> bool
        ensures lane { result ≡ is_lane self }
    {
        match self {
            Origin::Lane(_) => true,
            Origin::Edge(_) | Origin::Pin { .. } | Origin::Wire(_) => false,
        }
    }
}
