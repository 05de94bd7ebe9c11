//! What leads from mark to mark.

ghost use Rattle.std.specs.Prelude.{◌≡◌};
ghost use Rattle.lint.specs.Leads.{is_at, is_edge, is_pin, is_wire, leads_into};

use compose::DesignMark;
use itv_base::{Range, RuleKind};
use origin::Origin;

/// A lead from a mark of a design to a mark: a cause of a rule, or a join of a net. `kind` says how the rule reads its causes. The mark `from` stands
/// `shift` cycles before the mark `to`, and the range is of picoseconds. `origin` says what draws the lead.
#[derive(Clone, Copy)]
pub struct Lead {
    pub from: DesignMark,
    pub to: DesignMark,
    pub kind: RuleKind,
    pub shift: u32,
    pub range: Range,
    pub origin: Origin,
}

impl Lead {
    /// Whether the lead goes into a mark.
    pub fn leads_into(&self, mark: DesignMark) -> bool
        ensures into { result ≡ leads_into mark self.now }
    {
        is_at(self.to, mark)
    }
}

/// Whether two marks are one mark.
pub fn is_at(a: DesignMark, b: DesignMark) -> bool
    ensures { result ≡ is_at a b }
{
    a.part == b.part && a.mark == b.mark
}

/// Whether an edge of a sheet draws something.
pub fn is_edge(origin: Origin) -> bool
    ensures { result ≡ is_edge origin }
{
    match origin {
        Origin::Edge(_) => true,
        Origin::Lane(_) | Origin::Pin { .. } | Origin::Wire(_) => false,
    }
}

/// Whether a pin of a net draws something.
pub fn is_pin(origin: Origin) -> bool
    ensures { result ≡ is_pin origin }
{
    match origin {
        Origin::Pin { .. } => true,
        Origin::Lane(_) | Origin::Edge(_) | Origin::Wire(_) => false,
    }
}

/// Whether an edge of the netlist draws something.
pub fn is_wire(origin: Origin) -> bool
    ensures { result ≡ is_wire origin }
{
    match origin {
        Origin::Wire(_) => true,
        Origin::Lane(_) | Origin::Edge(_) | Origin::Pin { .. } => false,
    }
}
