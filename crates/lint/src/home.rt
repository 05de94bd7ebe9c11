//! Where rules and rows are drawn.

ghost use Rattle.std.specs.Prelude.{◌≡◌};
ghost use Rattle.lint.specs.Leads.{mark_at, mark_of};

use crate::asked::part_count;
use compose::{Design, DesignMark};

/// Where rules and rows are drawn: on the sheet of the part of a number, from 0, or in the netlist. On a sheet marks are numbered alone, and in the
/// netlist part by part.
#[derive(Clone, Copy)]
pub enum Home {
    Sheet(u32),
    Netlist,
}

impl Home {
    /// The mark that a number stands for. A number that no mark has stands for a mark that is not there.
    pub fn mark(self, number: u32, design: &Design<'_>) -> DesignMark
        ensures mark { result ≡ mark_at design.now.sheets self number }
    {
        match self {
            Home::Sheet(part) => DesignMark { part, mark: number },
            Home::Netlist => mark_of(design, number),
        }
    }
}

// The mark of a design with a number.
fn mark_of(design: &Design<'_>, number: u32) -> DesignMark
    ensures { result ≡ mark_of design.now.sheets number }
{
    let parts = part_count(design);
    let mut rest = number;
    for part in 0..parts {
        let count = design.sheet_of(part).marks().len() as u32;
        if rest < count {
            return DesignMark { part, mark: rest };
        }
        rest -= count;
    }
    DesignMark {
        part: parts,
        mark: rest,
    }
}
