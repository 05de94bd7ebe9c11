//! Numbers as they are drawn.

ghost use Rattle.std.specs.Prelude.{◌≡◌};
ghost use Rattle.drawn_numbers.specs.Numbers.{draws};

use itv_base::Text;
use origin::Origin;

/// What gives a range to causes of a drawn network, in all cycles at once. All numbers count from 0. The order of the marks on a lane is none:
/// it is drawn without a range.
#[derive(Drop)]
pub enum DrawnNumber {
    /// The edge with this number of the sheet of the part with this name. Edges that are comments count too.
    Edge { part: Text, edge: u64 },
    /// The net with this number, with all its pins.
    Net(u64),
    /// The edge with this number of the netlist. Edges that are comments count too.
    Wire(u64),
}

impl DrawnNumber {
    /// Whether the number gives its range to a cause that this draws. The part is the part of the target of the cause's constraint.
    pub fn draws(&self, part: &str, origin: Origin) -> bool
        ensures draws { result ≡ draws self.now part.now origin }
    {
        match (self, origin) {
            (DrawnNumber::Edge { part: own, edge }, Origin::Edge(number)) => {
                number == *edge && own.as_text() == part
            }
            (DrawnNumber::Net(net), Origin::Pin { net: number, .. }) => number == *net,
            (DrawnNumber::Wire(wire), Origin::Wire(number)) => number == *wire,
            _ => false,
        }
    }
}
