//! Putting the text of an origin.

ghost use Rattle.itv_base.specs.Outside.{Puts};
ghost use Rattle.origin.specs.Text.{origin_text};

use crate::origin::Origin;
use itoa::Buffer;
use itv_base::{PutFailed, Sink, number_text, put_all};

/// Puts the text of an origin, with no space before it and no end after it. If a put failed, a front of the text was
/// written, and the sink's count of faults rose.
pub fn put_origin<K: Sink>(origin: Origin, sink: &mut K) -> Result<(), PutFailed>
    ensures puts { Puts (K.state sink.old) (K.state sink.new) (origin_text origin) result }
{
    let mut digits = Buffer::new();
    let mut others = Buffer::new();
    match origin {
        Origin::Lane(lane) => {
            let lane = number_text(lane, &mut digits);
            put_all(sink, &[b"lane ", lane.as_bytes(), b" order"])
        }
        Origin::Edge(edge) => {
            let edge = number_text(edge, &mut digits);
            put_all(sink, &[b"edge ", edge.as_bytes()])
        }
        Origin::Pin { net, pin } => {
            let net = number_text(net, &mut digits);
            let pin = number_text(pin, &mut others);
            put_all(sink, &[b"net ", net.as_bytes(), b" pin ", pin.as_bytes()])
        }
        Origin::Wire(wire) => {
            let wire = number_text(wire, &mut digits);
            put_all(sink, &[b"wire ", wire.as_bytes()])
        }
    }
}
