//! The first limit that a design passes.

ghost use Rattle.std.specs.Prelude.{◌≡◌, ◌≤◌, ◌*◌, ◌^◌};
ghost use Rattle.unroll.specs.Limits.{counts_by, first_passed};
ghost use Rattle.unroll.specs.Step.Counting.{AreWithin};

use crate::counts::Counts;
use crate::limit::Limit;
use itv_base::MAX_CYCLES;

/// A limit, and the count that it is for.
#[derive(Clone, Copy)]
pub struct Counted {
    pub limit: Limit,
    pub count: u128,
}

/// The first limit that a design with so many cycles and these counts passes.
pub fn first_passed(cycles: u32, counts: Counts) -> Option<Counted>
    requires cycles { cycles ≤ MAX_CYCLES }
    requires marks { counts.marks ≤ 2 ^ 15 }
    requires counts { AreWithin (2 ^ 81) (2 ^ 106) counts }
    ensures { result ≡ first_passed
        (counts_by (cycles * counts.marks) counts.constraints counts.rows counts.splittable) }
{
    let events = u128::from(cycles) * counts.marks;
    first_of(&[
        Counted {
            limit: Limit::Events,
            count: events,
        },
        Counted {
            limit: Limit::Constraints,
            count: counts.constraints,
        },
        Counted {
            limit: Limit::Rows,
            count: counts.rows,
        },
        Counted {
            limit: Limit::Cells,
            count: events * counts.rows,
        },
        Counted {
            limit: Limit::SearchCells,
            count: events * (counts.splittable + 1),
        },
    ])
}

fn first_of(counts: &[Counted]) -> Option<Counted>
    ensures { result ≡ first_passed counts.now }
{
    for counted in counts {
        if u128::from(counted.limit.most()) < counted.count {
            return Some(*counted);
        }
    }
    None
}
