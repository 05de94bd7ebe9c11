//! How much a design draws, by counting without drawing it.

ghost use Rattle.std.specs.Prelude.{◌≡◌, ◌≤◌, ◌+◌, ◌^◌, ◌++◌, ℕ, List, max, nat_le, nat_lt, length, map, sum_by};
ghost use Rattle.std.specs.List.{list_all};
ghost use Rattle.itv_base.specs.declared.limits.TheConstants.{MAX_CYCLES};
ghost use Rattle.event_graph.specs.Network.{named_causes};
ghost use Rattle.sheet.specs.SheetContents.{SheetView};
ghost use Rattle.compose.specs.Numbers.{join_rule, mark_count};
ghost use Rattle.unroll.specs.Cycle.{part_rows, part_rules, rows_of, rules_of};
ghost use Rattle.unroll.specs.Step.Counting.{AreCounts, AreWithin, how_often, row_cycles, rule_cycles, splittable_cycles, sums};

use compose::{Design, Joins};
use itv_base::RuleKind;
use sheet::{Rule, RuleCause, Sheet, SheetRow};

/// How much a design draws: the marks of one cycle, and then for all cycles the constraints, the constraints with two or more
/// causes, and the rows.
#[derive(Clone, Copy)]
pub struct Counts {
    pub marks: u128,
    pub constraints: u128,
    pub splittable: u128,
    pub rows: u128,
}

impl Counts {
    /// The counts of a design.
    pub fn of(design: &Design<'_>) -> Counts
        ensures counts { AreCounts (mark_count design.now.sheets) design.now.cycles
            (rules_of design.now) (rows_of design.now) result }
        ensures within { AreWithin (2 ^ 81) (2 ^ 106) result }
    {
        count_parts(design).plus(count_joined(design))
    }

    // The sums of two counts.
    fn plus(self, other: Counts) -> Counts
        requires one { AreWithin (2 ^ 100) (2 ^ 120) self }
        requires other { AreWithin (2 ^ 100) (2 ^ 120) other }
        ensures { result ≡ sums self other }
    {
        Counts {
            marks: self.marks + other.marks,
            constraints: self.constraints + other.constraints,
            splittable: self.splittable + other.splittable,
            rows: self.rows + other.rows,
        }
    }
}

// The counts of the parts.
fn count_parts(design: &Design<'_>) -> Counts
    ensures counts { AreCounts (mark_count design.now.sheets) design.now.cycles
        (part_rules 0 design.now.sheets) (part_rows 0 design.now.sheets) result }
    ensures within { AreWithin (2 ^ 80) (2 ^ 80) result }
{
    let cycles = design.cycles();
    let parts = design.parts().len() as u32;
    let mut counts = Counts {
        marks: 0,
        constraints: 0,
        splittable: 0,
        rows: 0,
    };
    for part in 0..parts {
        counts = counts.plus(count_sheet(cycles, design.sheet_of(part)));
    }
    counts
}

// The counts of one part.
fn count_sheet(cycles: u32, sheet: &Sheet) -> Counts
    requires { cycles ≤ MAX_CYCLES }
    ensures counts { AreCounts (length sheet.now.marks) cycles sheet.now.rules sheet.now.rows result }
    ensures within { AreWithin (2 ^ 72) (2 ^ 72) result }
{
    let rules = count_rules(cycles, sheet.rules().as_slice());
    Counts {
        marks: u128::from(sheet.marks().len()),
        constraints: rules.all,
        splittable: rules.splittable,
        rows: count_rows(cycles, sheet.rows().as_slice()),
    }
}

// The counts of the nets and the wires.
fn count_joined(design: &Design<'_>) -> Counts
    ensures counts { AreCounts 0 design.now.cycles
        (map (join_rule design.now.sheets) design.now.joins ++ design.now.rules) design.now.rows result }
    ensures within { AreWithin (2 ^ 80) (2 ^ 105) result }
{
    let cycles = design.cycles();
    let wires = count_rules(cycles, design.wire_rules().as_slice());
    Counts {
        marks: 0,
        constraints: count_joins(cycles, design.joins()) + wires.all,
        splittable: wires.splittable,
        rows: count_rows(cycles, design.wire_rows().as_slice()),
    }
}

// How many constraints some rules give in all cycles, and how many of them have two or more causes.
#[derive(Clone, Copy)]
struct RuleCounts {
    all: u128,
    splittable: u128,
}

fn count_rules(cycles: u32, rules: &[Rule]) -> RuleCounts
    requires { cycles ≤ MAX_CYCLES }
    ensures all { result.all ≡ sum_by (rule_cycles cycles) rules.now }
    ensures splittable { result.splittable ≡ sum_by (splittable_cycles cycles) rules.now }
    ensures all_within { result.all ≤ 2 ^ 72 }
    ensures splittable_within { result.splittable ≤ 2 ^ 72 }
{
    let mut all = 0;
    let mut splittable = 0;
    for rule in rules {
        all += u128::from(rule_cycles(cycles, rule));
        splittable += u128::from(splittable_cycles(cycles, rule));
    }
    RuleCounts { all, splittable }
}

// How many constraints joins give in all cycles. A join exists in each cycle, and has one cause.
fn count_joins(cycles: u32, joins: &Joins) -> u128
    requires { cycles ≤ MAX_CYCLES }
    ensures all { (sheets : List SheetView) → result
        ≡ sum_by (rule_cycles cycles) (map (join_rule sheets) joins.now) }
    ensures splittable { (sheets : List SheetView) →
        sum_by (splittable_cycles cycles) (map (join_rule sheets) joins.now) ≡ 0 }
    ensures within { result ≤ 2 ^ 104 }
{
    u128::from(cycles) * joins.count()
}

fn count_rows(cycles: u32, rows: &[SheetRow]) -> u128
    requires { cycles ≤ MAX_CYCLES }
    ensures count { result ≡ sum_by (row_cycles cycles) rows.now }
    ensures within { result ≤ 2 ^ 72 }
{
    let mut count = 0;
    for row in rows {
        count += u128::from(cycles_from(cycles, row.shift));
    }
    count
}

// In how many of the cycles a rule exists.
fn rule_cycles(cycles: u32, rule: &Rule) -> u32
    ensures count { result ≡ rule_cycles cycles rule.now }
    ensures within { result ≤ cycles }
{
    cycles_from(cycles, last_shift(rule.causes().as_slice()))
}

// In how many of the cycles a rule exists if it has two or more causes to choose from, else 0.
fn splittable_cycles(cycles: u32, rule: &Rule) -> u32
    ensures count { result ≡ splittable_cycles cycles rule.now }
    ensures within { result ≤ cycles }
{
    if is_splittable(rule.kind(), rule.causes().len()) {
        rule_cycles(cycles, rule)
    } else {
        0
    }
}

// Whether a rule has two or more causes to choose from.
fn is_splittable(kind: RuleKind, causes: u64) -> bool
    ensures { result ≡ nat_lt 1 (named_causes kind causes) }
{
    match kind {
        RuleKind::Lin => false,
        RuleKind::Late | RuleKind::Early => 1 < causes,
    }
}

// The greatest number of cycles by which a cause is before the target.
fn last_shift(sources: &[RuleCause]) -> u32
    ensures { (cycle : ℕ) → list_all (λ source. nat_le source.shift cycle) sources.now ≡ nat_le result cycle }
{
    let mut last = 0;
    for source in sources {
        last = later(last, source.shift);
    }
    last
}

// The greater of two shifts.
fn later(a: u32, b: u32) -> u32
    ensures { result ≡ max a b }
{
    a.max(b)
}

// In how many of the first cycles something exists that looks `shift` cycles back.
fn cycles_from(cycles: u32, shift: u32) -> u32
    ensures count { result ≡ how_often (λ cycle. nat_le shift cycle) cycles }
    ensures within { result ≤ cycles }
{
    cycles.saturating_sub(shift)
}
