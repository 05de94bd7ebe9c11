//! Groups of causes: causes of one kind, one target and one tag are the causes of one rule.

ghost use Rattle.std.specs.Prelude.{◌≡◌, ◌++◌, ◌∷◌, [], List, length, if◌then◌else◌, true, Some, None, OnOk};
ghost use Rattle.sheet.specs.Groups.{AddsLink, ArePlaces, RepresentsRules, kind_of, place_of, same_group};
ghost use Rattle.sheet.specs.Step.{AddsCause, is_cause, link_view};
ghost use Rattle.sheet.specs.Links.{Link as LinkSeen, source_of};
ghost use Rattle.sheet.specs.Rule.{RuleView};
ghost use Rattle.sheet.specs.declared.groups.GroupFault.TheVariants.{NoMemory};

use crate::link::Link;
use crate::rule::{Rule, RuleCause, RuleCauses};
use itv_base::{MAX_CAUSES, NoMemory as OutOfMemory, RuleKind};
use label_grammar::Kind;
use std::alloc::{AllocFailed, Global};
use std::collections::HashMap;

/// What the causes of one rule have in common: how the rule reads them, its target by number, and a tag or none.
#[derive(Clone, Copy, PartialEq, Eq, Hash)]
pub struct Group<'a> {
    pub kind: RuleKind,
    pub target: u32,
    pub tag: Option<&'a str>,
}

/// Why a cause does not go into its group.
#[derive(Clone, Copy)]
pub enum GroupFault {
    /// The edge or wire of this number would be the 65th cause of its rule.
    TooManyCauses(u64),
    NoMemory,
}

impl<T: Drop> From<AllocFailed<T>> for GroupFault {
    ghost from_gives = { λ _ e. e ≡ NoMemory };

    fn from(_: AllocFailed<T>) -> GroupFault {
        GroupFault::NoMemory
    }
}

impl From<OutOfMemory> for GroupFault {
    ghost from_gives = { λ _ e. e ≡ NoMemory };

    fn from(_: OutOfMemory) -> GroupFault {
        GroupFault::NoMemory
    }
}

/// Where the rule of each group stands among the rules.
pub type Places<'a> = HashMap<Group<'a>, usize>;

/// Puts the link of edge n into the rules. A linear link becomes a rule of its own. A cause goes into the rule of its group, or opens
/// that rule if it is the group's first cause. A link that is a row changes nothing. After a fault neither the rules nor the table is
/// to be used.
pub fn push_link<'a>(
    alloc: Global,
    rules: &mut Vec<Rule>,
    places: &mut Places<'a>,
    n: u64,
    link: &Link<'a>,
) -> Result<(), GroupFault>
    requires { ArePlaces places.old (length rules.old.items) }
    ensures adds { (front : List RuleView) (links : List LinkSeen) → RepresentsRules front links rules.old.items places.old
        → AddsLink front links n (link_view link.now) result rules.new.items places.new }
{
    match link.label.kind {
        Kind::Lin => {
            push_rule(alloc, rules, RuleKind::Lin, link)?;
            Ok(())
        }
        Kind::Late => join_group(alloc, rules, places, n, RuleKind::Late, link),
        Kind::Early => join_group(alloc, rules, places, n, RuleKind::Early, link),
        Kind::Req | Kind::Ask => Ok(()),
    }
}

// Puts a link that is a cause into the rule of its group, or opens a rule for it.
fn join_group<'a>(
    alloc: Global,
    rules: &mut Vec<Rule>,
    places: &mut Places<'a>,
    n: u64,
    kind: RuleKind,
    link: &Link<'a>,
) -> Result<(), GroupFault>
    requires places { ArePlaces places.old (length rules.old.items) }
    requires kind { kind_of kind ≡ link.now.label.kind }
    requires cause { is_cause link.now.label.kind ≡ true }
    ensures { (front : List RuleView) (links : List LinkSeen) → RepresentsRules front links rules.old.items places.old
        → AddsLink front links n (link_view link.now) result rules.new.items places.new }
{
    let group = Group {
        kind,
        target: link.to,
        tag: link.label.tag,
    };
    match place_of(places, group) {
        Some(place) => {
            let rule = &mut rules[place];
            push_cause(rule, n, link.source())
        }
        None => {
            put_place(places, group, rules.len())?;
            push_rule(alloc, rules, kind, link)?;
            Ok(())
        }
    }
}

// Puts a rule with this one cause at the end.
fn push_rule(
    alloc: Global,
    rules: &mut Vec<Rule>,
    kind: RuleKind,
    link: &Link<'_>,
) -> Result<(), OutOfMemory>
    ensures { OnOk result (rules.new.items ≡ rules.old.items
        ++ record { kind = kind; target = link.now.to; causes = source_of (link_view link.now) ∷ [] } ∷ []) }
{
    let mut causes = RuleCauses::new(alloc);
    causes.push(link.source())?;
    rules.push(Rule::new(kind, link.to, causes))?;
    Ok(())
}

// Puts the cause of edge n at the end of the causes of a rule.
fn push_cause(rule: &mut Rule, n: u64, cause: RuleCause) -> Result<(), GroupFault>
    ensures { AddsCause rule.old n cause result rule.new }
{
    if rule.causes().len() >= MAX_CAUSES as u64 {
        return Err(GroupFault::TooManyCauses(n));
    }
    rule.push_cause(cause)?;
    Ok(())
}

// The place of the rule of a group, if it has one.
fn place_of<'a>(places: &Places<'a>, group: Group<'a>) -> Option<usize>
    ensures { result ≡ place_of places.now group.entry }
{
    places.get(&group).copied()
}

// Notes the place of the rule of a group.
fn put_place<'a>(places: &mut Places<'a>, group: Group<'a>, place: usize) -> Result<(), OutOfMemory>
    ensures { OnOk result ((other : Group) → place_of places.new other
        ≡ (if same_group group.entry other then Some place else place_of places.old other)) }
{
    places.insert(group, place)?;
    Ok(())
}
