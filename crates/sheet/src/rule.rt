//! The rules of a sheet: what becomes a constraint in each cycle.

ghost use Rattle.std.specs.Prelude.{◌≡◌, ◌++◌, ◌∷◌, [], OnOk, OnErr};

use itv_base::{Listing, NoMemory, Range, RuleKind};
use origin::Origin;
use std::marker::Model;

/// A cause of a rule: a mark by number, how many cycles it stands before the target, the range of its delay, and what draws it.
#[derive(Clone, Copy)]
pub struct RuleCause {
    pub mark: u32,
    pub shift: u32,
    pub range: Range,
    pub origin: Origin,
}

/// Causes in the order of their edges.
pub type RuleCauses = Listing<RuleCause>;

/// A rule on a target mark by its causes. A linear rule has one cause, its from-mark.
#[derive(Drop)]
pub struct Rule {
    kind: RuleKind,
    target: u32,
    causes: RuleCauses,
}

impl Model for Rule {
    ghost use Rattle.sheet.specs.Rule.{RuleView};

    ghost Value = { RuleView };

    ghost view = { λ r. record { kind = r.kind; target = r.target; causes = r.causes } };
}

impl Rule {
    /// A rule of these parts.
    pub fn new(kind: RuleKind, target: u32, causes: RuleCauses) -> Rule
        ensures rule { result ≡ record { kind = kind; target = target; causes = causes } }
    {
        Rule {
            kind,
            target,
            causes,
        }
    }

    /// How the rule reads its causes.
    pub fn kind(&self) -> RuleKind
        ensures kind { result ≡ self.now.kind }
    {
        self.kind
    }

    /// The target's number.
    pub fn target(&self) -> u32
        ensures target { result ≡ self.now.target }
    {
        self.target
    }

    /// The causes in order.
    pub fn causes(&self) -> &RuleCauses
        ensures causes { result.now ≡ self.now.causes }
    {
        &self.causes
    }

    /// Puts a cause at the end. If memory is not found, the rule is unchanged.
    pub(crate) fn push_cause(&mut self, cause: RuleCause) -> Result<(), NoMemory>
        ensures ok { OnOk result (self.new ≡ record self.old { causes = self.old.causes ++ cause ∷ [] }) }
        ensures err { OnErr result (self.new ≡ self.old) }
    {
        self.causes.push(cause)
    }
}

/// Rules in the order in which they become constraints.
pub type Rules = Listing<Rule>;
