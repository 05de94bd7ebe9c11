//! Edits of a network.

ghost use Rattle.std.specs.Prelude.{◌≡◌, ◌∷◌, [], All, IfOk, IsTrue};
ghost use Rattle.drawn_numbers.specs.Numbers.{IsCauseOf};
ghost use Rattle.range_edits.specs.Subject.{causes_at, is_there};

use drawn_networks::DrawnNetwork;
use drawn_numbers::{CauseName, DrawnNumber, causes_of};
use itv_base::{Listing, NoMemory, Range};
use std::alloc::Global;

/// What an edit gives another range.
#[derive(Drop)]
pub enum Subject {
    /// A cause of a constraint.
    Cause(CauseName),
    /// Each cause that a number draws, in all cycles at once.
    Number(DrawnNumber),
}

impl Subject {
    /// The causes, in the order of constraints and of their causes. If the subject is there, all of them are.
    pub fn causes(&self, alloc: Global, drawn: &DrawnNetwork) -> Result<Vec<CauseName>, NoMemory>
        ensures causes { IfOk result (λ causes. causes.items ≡ causes_at drawn.now self.now) }
        ensures there { IfOk result (λ causes. IsTrue (is_there drawn.now self.now) → All (IsCauseOf drawn.now.net) causes.items) }
    {
        match self {
            Subject::Cause(name) => one_cause(alloc, *name),
            Subject::Number(number) => causes_of(alloc, drawn, number),
        }
    }

    /// Whether the drawn network has the cause, or one at least that the number draws.
    pub fn is_there(&self, alloc: Global, drawn: &DrawnNetwork) -> Result<bool, NoMemory>
        ensures there { IfOk result (λ there. there ≡ is_there drawn.now self.now) }
    {
        match self {
            Subject::Cause(name) => Ok(drawn.network().has_cause(name.constraint, name.cause)),
            Subject::Number(number) => Ok(!causes_of(alloc, drawn, number)?.is_empty()),
        }
    }
}

fn one_cause(alloc: Global, name: CauseName) -> Result<Vec<CauseName>, NoMemory>
    ensures { IfOk result (λ causes. causes.items ≡ name ∷ []) }
{
    let mut causes = Vec::new(alloc);
    causes.push(name)?;
    Ok(causes)
}

/// Another range, in picoseconds, for a cause of a constraint, or for each cause that a number draws.
#[derive(Drop)]
pub struct RangeEdit {
    pub subject: Subject,
    pub range: Range,
}

/// Edits in the order in which they are made.
pub type Edits = Listing<RangeEdit>;
