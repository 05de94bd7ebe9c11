//! What is asked of a rule.

ghost use Rattle.std.specs.Prelude.{◌≡◌, option_map, slice_get};
ghost use Rattle.std.specs.List.{list_any};
ghost use Rattle.lint.specs.Lists.{spot};
ghost use Rattle.lint.specs.Rules.{drawn_by, from_mark, is_high, is_linear, is_upper, keeps_order};

use crate::warning::DrawnPlace;
use itv_base::RuleKind;
use origin::Origin;
use sheet::{Rule, RuleCause};

/// What draws the first cause of a rule, if the rule has one.
pub fn drawn_by(rule: &Rule) -> Option<Origin>
    ensures { result ≡ drawn_by rule.now }
{
    let first = first_cause(rule)?;
    Some(first.origin)
}

/// What draws the first cause of a rule of a part, if the rule has one.
pub fn spot_of(part: u32, rule: &Rule) -> Option<DrawnPlace>
    ensures { result ≡ option_map (spot part) (drawn_by rule.now) }
{
    let origin = drawn_by(rule)?;
    Some(DrawnPlace { part, origin })
}

/// The mark of the first cause of a rule, if the rule has one.
pub fn from_mark(rule: &Rule) -> Option<u32>
    ensures { result ≡ from_mark rule.now }
{
    let first = first_cause(rule)?;
    Some(first.mark)
}

/// The first cause of a rule, if it has one.
pub fn first_cause(rule: &Rule) -> Option<RuleCause>
    ensures { result ≡ slice_get rule.now.causes 0 }
{
    match rule.causes().as_slice() {
        [first, ..] => Some(*first),
        [] => None,
    }
}

/// Whether a rule is linear and holds its target from above.
pub fn is_upper(rule: &Rule) -> bool
    ensures { result ≡ is_upper rule.now }
{
    is_linear(rule.kind()) && holds_above(rule)
}

/// Whether some cause of a rule holds its target from above.
pub fn holds_above(rule: &Rule) -> bool
    ensures { result ≡ list_any is_high rule.now.causes }
{
    rule.causes().as_slice().iter().any(|cause| is_high(cause))
}

/// Whether a cause of a rule holds its target from above.
pub fn is_high(cause: &RuleCause) -> bool
    ensures { result ≡ is_high cause.now }
{
    cause.range.high().is_some()
}

/// Whether rules of a kind are linear.
pub fn is_linear(kind: RuleKind) -> bool
    ensures { result ≡ is_linear kind }
{
    match kind {
        RuleKind::Lin => true,
        RuleKind::Late | RuleKind::Early => false,
    }
}

/// Whether the order of a lane draws a rule.
pub fn keeps_order(rule: &Rule) -> bool
    ensures { result ≡ keeps_order rule.now }
{
    match drawn_by(rule) {
        Some(origin) => origin.is_lane(),
        None => false,
    }
}
