//! Why a drawing is no sheet.

ghost use Rattle.std.specs.Prelude.{◌≡◌};
ghost use Rattle.sheet.specs.Fault.{sheet_fault};
ghost use Rattle.sheet.specs.declared.fault.SheetFault.TheVariants.{NoMemory};

use crate::groups::GroupFault;
use itv_base::NoMemory as OutOfMemory;
use label_grammar::LabelFault;
use std::alloc::AllocFailed;
use thiserror::Error;

/// The first fault of a drawing. First comes a grade that is not there, then the faults of the lanes, then the faults of the edges, each
/// in the order below; the parameter of an edge is looked up after its label and before its marks. Lanes and edges are counted from 0,
/// with the comments among the edges. A mark is given by its character.
#[derive(Clone, Copy, Debug, Error)]
pub enum SheetFault {
    /// The first lane whose `node` has a character that is not a full stop, a space or a mark.
    #[error("lane {0} has a node with a character that is no mark")]
    BadNode(u64),
    /// The first mark that repeats an earlier mark.
    #[error("the mark with the code {0} stands twice")]
    DoubleMark(u8),
    /// The first lane that is a pin with the name of an earlier pin.
    #[error("lane {0} has the name of an earlier pin")]
    DoublePin(u64),
    /// The first word of a timing edge is not a shape between two marks.
    #[error("edge {0} has no shape between two marks")]
    BadEdge(u64),
    /// The label of a timing edge is refused.
    #[error("the label of edge {0} is refused")]
    Label(u64, LabelFault),
    /// A timing edge names a mark that is not on the sheet: the from-mark, or else the to-mark.
    #[error("edge {0} names the mark with the code {1}, which is not there")]
    NoMark(u64, u8),
    /// The edge would be the 65th cause of its constraint.
    #[error("edge {0} is one cause too many")]
    TooManyCauses(u64),
    /// The named grade is not there. `read_sheet` never reports this.
    #[error("the sheet has no such grade")]
    NoGrade,
    /// The label of the edge names a parameter, but no grade is named or the grade has no such parameter. `read_sheet` never reports this.
    #[error("edge {0} names a parameter that is not there")]
    NoParam(u64),
    #[error("out of memory")]
    NoMemory,
}

impl<T: Drop> From<AllocFailed<T>> for SheetFault {
    ghost from_gives = { λ _ e. e ≡ NoMemory };

    fn from(_: AllocFailed<T>) -> SheetFault {
        SheetFault::NoMemory
    }
}

impl From<OutOfMemory> for SheetFault {
    ghost from_gives = { λ _ e. e ≡ NoMemory };

    fn from(_: OutOfMemory) -> SheetFault {
        SheetFault::NoMemory
    }
}

impl From<GroupFault> for SheetFault {
    ghost from_gives = { λ fault e. e ≡ sheet_fault fault };

    fn from(fault: GroupFault) -> SheetFault {
        match fault {
            GroupFault::TooManyCauses(n) => SheetFault::TooManyCauses(n),
            GroupFault::NoMemory => SheetFault::NoMemory,
        }
    }
}
