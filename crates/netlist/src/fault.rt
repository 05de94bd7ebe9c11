//! Why a tree is no netlist.

ghost use Rattle.std.specs.Prelude.{◌≡◌};
ghost use Rattle.netlist.specs.declared.fault.NetlistFault.TheVariants.{NoMemory};

use itv_base::{NoMemory as OutOfMemory, RangeFault};
use label_grammar::LabelFault;
use std::alloc::AllocFailed;
use thiserror::Error;

/// The first fault of a tree. Faults of the whole come before faults of parts, these before faults of nets, and these before faults of wires.
/// Within each the order is as below. A fault has the number of its part, net or wire, counted from 0. Comments count among the wires.
#[derive(Clone, Copy, Debug, Error)]
pub enum NetlistFault {
    /// The tree is no object.
    #[error("the netlist is no object")]
    NotObject,
    /// `itv` is neither the whole number 1 nor 2.
    #[error("`itv` is neither 1 nor 2")]
    Version,
    /// `cycles` is no whole number from 1 to [`MAX_CYCLES`](itv_base::MAX_CYCLES).
    #[error("`cycles` is no number of cycles")]
    Cycles,
    /// `parts` is missing or no list.
    #[error("the netlist has no list `parts`")]
    PartsNotList,
    /// There are so many parts, more than [`MAX_PARTS`](itv_base::MAX_PARTS).
    #[error("{0} parts are too many")]
    TooManyParts(u64),
    /// The part is no object with a name of 1 to 16 letters of ASCII, digits or `_` and a text for its sheet. Or, in version 2, it has a grade
    /// that does not have the form of a name.
    #[error("part {0} has no name and sheet, or a grade that is no name")]
    Part(u64),
    /// The part has the name of an earlier part.
    #[error("part {0} has the name of an earlier part")]
    DoublePart(u64),
    /// There are so many distinct sheet names, more than [`MAX_SHEET_NAMES`](itv_base::MAX_SHEET_NAMES).
    #[error("{0} sheets are too many")]
    TooManySheets(u64),
    /// `nets` is there and no list.
    #[error("`nets` is no list")]
    NetsNotList,
    /// The net has no list of pin texts, or it has a delay that is not two ends, each a whole number or null.
    #[error("net {0} has no pins and delay")]
    Net(u64),
    /// The delay of the net is no range.
    #[error("the delay of net {0} is no range")]
    Delay(u64, RangeFault),
    /// `edges` is there and no list.
    #[error("`edges` is no list")]
    EdgesNotList,
    /// The wire is no text, or its words before a timing label do not each name a mark of a part.
    #[error("wire {0} is not between two marks")]
    Edge(u64),
    /// The label of the wire is refused.
    #[error("the label of wire {0} is refused")]
    Label(u64, LabelFault),
    #[error("out of memory")]
    NoMemory,
}

impl<T: Drop> From<AllocFailed<T>> for NetlistFault {
    ghost from_gives = { λ _ e. e ≡ NoMemory };

    fn from(_: AllocFailed<T>) -> NetlistFault {
        NetlistFault::NoMemory
    }
}

impl From<OutOfMemory> for NetlistFault {
    ghost from_gives = { λ _ e. e ≡ NoMemory };

    fn from(_: OutOfMemory) -> NetlistFault {
        NetlistFault::NoMemory
    }
}
