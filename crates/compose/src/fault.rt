//! Why a netlist and its sheets make no design.

ghost use Rattle.std.specs.Prelude.{◌≡◌};
ghost use Rattle.compose.specs.Fault.{join_fault};
ghost use Rattle.compose.specs.declared.fault.JoinFault.TheVariants.{NoMemory};

use itv_base::NoMemory as OutOfMemory;
use sheet::GroupFault;
use std::alloc::AllocFailed;
use thiserror::Error;

/// The first fault of a netlist with its sheets. The nets are checked in order, each in three steps. First each pin has to be there, its part before
/// the pin itself. Then each pin has to have as many marks as the first one. Then, pin by pin and mark by mark, the kinds of the marks have to fit.
/// After all nets the wires are checked in order, both parts before both marks. Nets, pins of a net, marks of a pin and wires have numbers from 0,
/// and comments are counted among the wires.
#[derive(Clone, Copy, Debug, Error)]
pub enum JoinFault {
    /// The numbers of a net and its pin. No part has the name that the pin has.
    #[error("pin {1} of net {0} is of no part")]
    NoPart(u64, u64),
    /// The numbers of a net and its pin. The sheet of the part has no pin with this name.
    #[error("pin {1} of net {0} is not on its sheet")]
    NoPin(u64, u64),
    /// The numbers of a net and its pin, how many marks the first pin has, and how many this pin has. The counts differ.
    #[error("pin {1} of net {0} has {3} marks in place of {2}")]
    MarkCounts(u64, u64, u32, u32),
    /// The numbers of a net, its pin and a mark. Of the two marks with this number, on the first pin and on this pin, one is a rise and the other a
    /// fall.
    #[error("mark {2} of pin {1} of net {0} turns the other way")]
    KindsDiffer(u64, u64, u32),
    /// The number of a wire. No part has one of the two part names of the wire.
    #[error("wire {0} names no part")]
    WireNoPart(u64),
    /// The number of a wire. One of its two marks is not on the sheet of its part.
    #[error("wire {0} names no mark")]
    WireNoMark(u64),
    /// The number of a wire. It would be one cause too many for its rule.
    #[error("wire {0} is one cause too many")]
    TooManyCauses(u64),
    #[error("out of memory")]
    NoMemory,
}

impl<T: Drop> From<AllocFailed<T>> for JoinFault {
    ghost from_gives = { λ _ e. e ≡ NoMemory };

    fn from(_: AllocFailed<T>) -> JoinFault {
        JoinFault::NoMemory
    }
}

impl From<OutOfMemory> for JoinFault {
    ghost from_gives = { λ _ e. e ≡ NoMemory };

    fn from(_: OutOfMemory) -> JoinFault {
        JoinFault::NoMemory
    }
}

impl From<GroupFault> for JoinFault {
    ghost from_gives = { λ fault e. e ≡ join_fault fault };

    fn from(fault: GroupFault) -> JoinFault {
        match fault {
            GroupFault::TooManyCauses(n) => JoinFault::TooManyCauses(n),
            GroupFault::NoMemory => JoinFault::NoMemory,
        }
    }
}
