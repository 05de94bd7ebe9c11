//! Lines that are meant.

ghost use Rattle.std.specs.Prelude.{◌≡◌, codes, nat_eq};
ghost use Rattle.std.specs.List.{ends_with};
ghost use Rattle.job_lint.specs.Lines.{is_about_meant, is_clean, is_meant, is_place_meant, is_silenced, is_spot_meant, is_warning_meant, meant_count};

use crate::drawn_at::DrawnAt;
use crate::line::Line;
use crate::parts::{event_part, part_word};
use compose::Design;
use design_plan::Plan;
use drawn_networks::DrawnNetwork;
use lint::{About, DrawnPlace, Warning};
use origin::{Notes, Origin};

/// Whether no line is to be printed: each is silenced.
pub fn is_clean(plan: &Plan, design: &Design<'_>, drawn: &DrawnNetwork, lines: &[Line]) -> bool
    ensures clean { result ≡ is_clean plan.now design.now drawn.now lines.now }
{
    lines
        .iter()
        .all(|line| is_silenced(plan, design, drawn, line))
}

/// How many lines are silenced.
pub fn meant_count(plan: &Plan, design: &Design<'_>, drawn: &DrawnNetwork, lines: &[Line]) -> u64
    ensures count { result ≡ meant_count plan.now design.now drawn.now lines.now }
{
    lines
        .iter()
        .filter(|line| is_silenced(plan, design, drawn, line))
        .count() as u64
}

/// Whether a line is silenced: an edge that it is about is meant.
pub fn is_silenced(plan: &Plan, design: &Design<'_>, drawn: &DrawnNetwork, line: &Line) -> bool
    ensures silenced { result ≡ is_silenced plan.now design.now drawn.now line.now }
{
    match line {
        Line::Drawing(warning) => is_warning_meant(plan, design, warning),
        Line::Narrow { at, .. } | Line::Order { at, .. } => is_place_meant(plan, drawn, at),
        Line::Never(_)
        | Line::OpenRow { .. }
        | Line::Contradiction
        | Line::OrderContradicts
        | Line::Open
        | Line::OpenEnds(_) => false,
    }
}

/// Whether a warning is silenced: its word can be meant, and an edge that it is about is meant.
pub fn is_warning_meant(plan: &Plan, design: &Design<'_>, warning: &Warning) -> bool
    ensures meant { result ≡ is_warning_meant plan.now design.now warning.now }
{
    warning.word.can_be_meant() && is_about_meant(plan, design, &warning.about)
}

fn is_about_meant(plan: &Plan, design: &Design<'_>, about: &About) -> bool
    ensures { result ≡ is_about_meant plan.now design.now about.now }
{
    match about {
        About::Place(place) | About::Follows { by: place, .. } => {
            is_spot_meant(plan, design, place)
        }
        About::Two(first, other) => {
            is_spot_meant(plan, design, first) || is_spot_meant(plan, design, other)
        }
        About::Driven { mark, edge, .. } => {
            is_meant(plan, part_word(design, u64::from(mark.part)), *edge)
        }
        About::Net(net) => is_meant(plan, "", Origin::Pin { net: *net, pin: 0 }),
        _ => false,
    }
}

fn is_spot_meant(plan: &Plan, design: &Design<'_>, spot: &DrawnPlace) -> bool
    ensures { result ≡ is_spot_meant plan.now design.now spot.now }
{
    is_meant(plan, part_word(design, u64::from(spot.part)), spot.origin)
}

fn is_place_meant(plan: &Plan, drawn: &DrawnNetwork, at: &DrawnAt) -> bool
    ensures { result ≡ is_place_meant plan.now drawn.now at.now }
{
    is_meant(plan, event_part(drawn, at.event), at.origin)
}

// Whether the note of an edge, or the name of a net, says that it is meant.
fn is_meant(plan: &Plan, part: &str, origin: Origin) -> bool
    ensures { result ≡ is_meant plan.now part.now origin }
{
    ends_with_meant(plan.note(part, origin))
}

fn ends_with_meant(note: &str) -> bool
    ensures { result ≡ ends_with nat_eq note.now (codes "(meant)") }
{
    note.ends_with("(meant)")
}
