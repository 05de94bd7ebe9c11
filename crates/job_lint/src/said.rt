//! Warnings of the drawing that lines of ends say too.

ghost use Rattle.std.specs.Prelude.{◌≡◌};
ghost use Rattle.job_lint.specs.Lines.{is_about, is_narrow_spot, is_said, is_same_edge};

use crate::line::Line;
use crate::parts::{event_part, part_word};
use compose::Design;
use drawn_networks::DrawnNetwork;
use lint::{About, DrawnPlace, Warning, WarningWord};
use origin::Origin;

/// Whether lines of ends say what a warning says: it is of two rules into one mark, and a line is about one of the two.
pub fn is_said(
    design: &Design<'_>,
    drawn: &DrawnNetwork,
    narrow: &[Line],
    warning: &Warning,
) -> bool
    ensures said { result ≡ is_said design.now drawn.now narrow.now warning.now }
{
    match (warning.word, &warning.about) {
        (WarningWord::Both, About::Two(first, other)) => {
            is_narrow_spot(design, drawn, narrow, first)
                || is_narrow_spot(design, drawn, narrow, other)
        }
        _ => false,
    }
}

// Whether a line is about the end of the range of an edge.
fn is_narrow_spot(
    design: &Design<'_>,
    drawn: &DrawnNetwork,
    narrow: &[Line],
    spot: &DrawnPlace,
) -> bool
    ensures { result ≡ is_narrow_spot design.now drawn.now narrow.now spot.now }
{
    let part = part_word(design, u64::from(spot.part));
    let origin = spot.origin;
    narrow
        .iter()
        .any(|line| is_about(drawn, part, origin, line))
}

// Whether a line is about the end of the range of an edge, given the name of its part.
fn is_about(drawn: &DrawnNetwork, part: &str, origin: Origin, line: &Line) -> bool
    ensures { result ≡ is_about drawn.now part.now origin line.now }
{
    match line {
        Line::Narrow { at, .. } => {
            is_same_edge(part, origin, event_part(drawn, at.event), at.origin)
        }
        _ => false,
    }
}

// Whether two places are one edge of a sheet or of the netlist.
fn is_same_edge(part: &str, origin: Origin, other: &str, more: Origin) -> bool
    ensures { result ≡ is_same_edge part.now origin other.now more }
{
    match (origin, more) {
        (Origin::Edge(m), Origin::Edge(n)) => m == n && part == other,
        (Origin::Wire(m), Origin::Wire(n)) => m == n,
        _ => false,
    }
}
