//! Other ranges for causes.

ghost use Rattle.std.specs.Prelude.{◌≡◌};
ghost use Rattle.drawn_numbers.specs.Numbers.{with_ranges};

use crate::cause_name::CauseName;
use event_graph::Network;
use itv_base::Range;

/// Gives each of these causes another range, in picoseconds. A cause that is not there is ignored. Takes no memory.
pub fn set_ranges(net: &mut Network, causes: &[CauseName], range: Range)
    ensures set { net.new ≡ with_ranges net.old causes.now range }
{
    for k in 0..causes.len() {
        let name = causes[k];
        net.set_range(name.constraint, name.cause, range);
    }
}
