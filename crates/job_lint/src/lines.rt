//! The lines, with those that are meant.

ghost use Rattle.std.specs.Prelude.{◌≡◌, ◌++◌, ◌<◌, if◌then◌else◌, [], ◌∷◌, IfOk, count_by, length, map};
ghost use Rattle.std.specs.List.{flat_map};
ghost use Rattle.job_lint.specs.Lines.{drawing_line, is_end_open, lines_of, narrow_line, narrow_lines, open_ends_line, order_lines, other_lines, row_line, row_lines};
ghost use Rattle.job_lint.specs.declared.line.Line.{Line as LineOf};
ghost use Rattle.job_lint.specs.declared.line.Line.TheVariants.{Contradiction, Never};
ghost use Rattle.lint.specs.Never.{never_places};

use crate::by_order::ByOrder;
use crate::drawn_at::DrawnAt;
use crate::ends::{is_end_open, narrow_line};
use crate::line::Line;
use crate::lint_found::LintFound;
use crate::resting::{is_row_open, rests_on_order};
use crate::row_seen::RowSeen;
use crate::said::is_said;
use compose::Design;
use drawn_networks::{DrawnNetwork, Row};
use itv_base::NoMemory;
use lint::{DrawnPlace, Warning, never_places};
use narrow_ends::RangeEnd;
use std::alloc::Global;

/// All lines in order, according to the warnings of the drawing and to what is found.
pub fn lines_of(
    alloc: Global,
    design: &Design<'_>,
    drawn: &DrawnNetwork,
    warnings: &[Warning],
    found: &LintFound,
) -> Result<Vec<Line>, NoMemory>
    ensures lines { IfOk result (λ lines. lines.items ≡ lines_of design.now drawn.now warnings.now found.now) }
{
    let narrow = narrow_lines(alloc, drawn, found)?;
    let mut lines = drawing_lines(alloc, design, drawn, &narrow, warnings)?;
    push_never(alloc, design, &mut lines)?;
    push_all(&narrow, &mut lines)?;
    push_others(drawn, found, &mut lines)?;
    Ok(lines)
}

// The lines of the warnings of the drawing, except for those that lines of ends say too.
fn drawing_lines(
    alloc: Global,
    design: &Design<'_>,
    drawn: &DrawnNetwork,
    narrow: &[Line],
    warnings: &[Warning],
) -> Result<Vec<Line>, NoMemory>
    ensures lines { IfOk result (λ lines. lines.items ≡ flat_map (drawing_line design.now drawn.now narrow.now) warnings.now) }
{
    let mut lines = Vec::new(alloc);
    for warning in warnings {
        push_drawing(design, drawn, narrow, warning, &mut lines)?;
    }
    Ok(lines)
}

// The line of a warning of the drawing, if lines of ends do not say it too.
fn push_drawing(
    design: &Design<'_>,
    drawn: &DrawnNetwork,
    narrow: &[Line],
    warning: &Warning,
    lines: &mut Vec<Line>,
) -> Result<(), NoMemory>
    ensures lines { IfOk result (λ _. lines.new.items ≡ lines.old.items ++ drawing_line design.now drawn.now narrow.now warning.now) }
{
    if is_said(design, drawn, narrow, warning) {
        return Ok(());
    }
    Ok(lines.push(Line::Drawing(*warning))?)
}

// The lines of the rules and rows that are in no cycle.
fn push_never(alloc: Global, design: &Design<'_>, lines: &mut Vec<Line>) -> Result<(), NoMemory>
    ensures lines { IfOk result (λ _. lines.new.items ≡ lines.old.items ++ map Never (never_places design.now)) }
{
    let places = never_places(alloc, design)?;
    push_places(&places, lines)
}

fn push_places(places: &[DrawnPlace], lines: &mut Vec<Line>) -> Result<(), NoMemory>
    ensures lines { IfOk result (λ _. lines.new.items ≡ lines.old.items ++ map Never places.now) }
{
    for place in places {
        lines.push(Line::Never(*place))?;
    }
    Ok(())
}

// Lines after others.
fn push_all(more: &[Line], lines: &mut Vec<Line>) -> Result<(), NoMemory>
    ensures lines { IfOk result (λ _. lines.new.items ≡ lines.old.items ++ more.now) }
{
    for line in more {
        lines.push(*line)?;
    }
    Ok(())
}

// ---- what is found

// The lines of the ends that no times attain.
fn narrow_lines(
    alloc: Global,
    drawn: &DrawnNetwork,
    found: &LintFound,
) -> Result<Vec<Line>, NoMemory>
    ensures lines { IfOk result (λ lines. lines.items ≡ narrow_lines drawn.now found.now) }
{
    match found {
        LintFound::Consistent { ends, .. } => end_lines(alloc, drawn, ends),
        LintFound::Inconsistent(_) | LintFound::Open => Ok(Vec::new(alloc)),
    }
}

fn end_lines(alloc: Global, drawn: &DrawnNetwork, ends: &[RangeEnd]) -> Result<Vec<Line>, NoMemory>
    ensures lines { IfOk result (λ lines. lines.items ≡ flat_map (narrow_line drawn.now) ends.now) }
{
    let mut lines = Vec::new(alloc);
    for end in ends {
        push_end(drawn, end, &mut lines)?;
    }
    Ok(lines)
}

// The line of an end, if no times attain it.
fn push_end(drawn: &DrawnNetwork, end: &RangeEnd, lines: &mut Vec<Line>) -> Result<(), NoMemory>
    ensures lines { IfOk result (λ _. lines.new.items ≡ lines.old.items ++ narrow_line drawn.now end.now) }
{
    match narrow_line(drawn, end) {
        Some(line) => Ok(lines.push(line)?),
        None => Ok(()),
    }
}

// The lines after the lines of ends.
fn push_others(
    drawn: &DrawnNetwork,
    found: &LintFound,
    lines: &mut Vec<Line>,
) -> Result<(), NoMemory>
    ensures lines { IfOk result (λ _. lines.new.items ≡ lines.old.items ++ other_lines drawn.now found.now) }
{
    match found {
        LintFound::Consistent { ends, rows } => push_behind(drawn, ends, rows, lines),
        LintFound::Inconsistent(by) => push_contradiction(*by, lines),
        LintFound::Open => Ok(lines.push(Line::Open)?),
    }
}

// The line of a contradiction, and what is known of the order of lanes in it.
fn push_contradiction(by: ByOrder, lines: &mut Vec<Line>) -> Result<(), NoMemory>
    ensures lines { IfOk result (λ _. lines.new.items ≡ lines.old.items ++ Contradiction ∷ order_lines by) }
{
    lines.push(Line::Contradiction)?;
    match by {
        ByOrder::Yes => Ok(lines.push(Line::OrderContradicts)?),
        ByOrder::No => Ok(()),
        ByOrder::Open => Ok(lines.push(Line::Open)?),
    }
}

// The lines of rows, and the line of ends that were left open.
fn push_behind(
    drawn: &DrawnNetwork,
    ends: &[RangeEnd],
    rows: &[RowSeen],
    lines: &mut Vec<Line>,
) -> Result<(), NoMemory>
    ensures lines { IfOk result (λ _. lines.new.items
        ≡ lines.old.items ++ (row_lines drawn.now 0 drawn.now.rows rows.now ++ open_ends_line (count_by is_end_open ends.now))) }
{
    push_rows(drawn, rows, lines)?;
    push_open_ends(open_count(ends), lines)
}

// The line of a number of ends that were left open.
fn push_open_ends(count: u64, lines: &mut Vec<Line>) -> Result<(), NoMemory>
    ensures lines { IfOk result (λ _. lines.new.items ≡ lines.old.items ++ open_ends_line count) }
{
    if count == 0 {
        return Ok(());
    }
    Ok(lines.push(Line::OpenEnds(count))?)
}

fn push_rows(drawn: &DrawnNetwork, found: &[RowSeen], lines: &mut Vec<Line>) -> Result<(), NoMemory>
    ensures lines { IfOk result (λ _. lines.new.items ≡ lines.old.items ++ row_lines drawn.now 0 drawn.now.rows found.now) }
{
    let rows = drawn.rows().as_slice();
    for number in 0..rows.len() {
        if found.len() <= number {
            return Ok(());
        }
        push_row(drawn, number as u64, &rows[number], &found[number], lines)?;
    }
    Ok(())
}

fn push_row(
    drawn: &DrawnNetwork,
    number: u64,
    row: &Row,
    found: &RowSeen,
    lines: &mut Vec<Line>,
) -> Result<(), NoMemory>
    ensures lines { IfOk result (λ _. lines.new.items ≡ lines.old.items ++ row_line drawn.now number row.now found.now) }
{
    let at = DrawnAt {
        event: row.from,
        origin: row.origin,
    };
    if rests_on_order(drawn, row, found) {
        return Ok(lines.push(Line::Order { number, at })?);
    }
    if is_row_open(found) {
        return Ok(lines.push(Line::OpenRow { number, at })?);
    }
    Ok(())
}

// How many ends were left open.
fn open_count(ends: &[RangeEnd]) -> u64
    ensures { result ≡ count_by is_end_open ends.now }
{
    ends.iter().filter(|end| is_end_open(end)).count() as u64
}
