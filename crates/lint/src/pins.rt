//! The joins of pins.

ghost use Rattle.std.specs.Prelude.{◌≡◌, ◌<◌};
ghost use Rattle.compose.specs.Joins.{join_at};
ghost use Rattle.lint.specs.Step.{IsPinOf};

use compose::{Design, Join, PinJoins};

/// Join k of a pin of a design, counted from 0.
pub fn join_of(pin: &PinJoins, k: u32, design: &Design<'_>) -> Join
    requires pin { IsPinOf design.now pin.now }
    requires there { k < pin.now.marks }
    ensures join { result ≡ join_at pin.now k }
{
    // Its marks are marks of the design, so their numbers are small.
    pin.join(k)
}
