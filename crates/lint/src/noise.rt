//! Warnings that a definition gives and that are noise in most drawings.

use crate::about::About;
use crate::asked::sheet_at;
use crate::blocks::Blocks;
use crate::drawn_leads::DrawnLeads;
use crate::firsts::{FirstLeads, has_first, note_first};
use crate::lead::{Lead, is_at};
use crate::skew::draws_skew;
use crate::warning::{DrawnPlace, Warning};
use crate::warning_word::WarningWord;
use compose::Design;
use itv_base::NoMemory;
use origin::Origin;
use std::alloc::Global;

// What the leads of a design connect.
#[derive(Drop)]
struct Connected {
    drawn: DrawnLeads,
    blocks: Blocks,
    // The first lead from another mark into each mark.
    led: FirstLeads,
}

/// The warnings of a design without those that are noise: `both` if only the target connects the two rules and something leads into one of their marks, and `own`
/// if the edge is a skew. The leads are those of the design. The answer is `NoMemory` if memory runs out.
pub fn without_noise(
    alloc: Global,
    warnings: &[Warning],
    leads: &[Lead],
    design: &Design<'_>,
) -> Result<Vec<Warning>, NoMemory> {
    let connected = connected_by(alloc, leads)?;
    let heard = heard_of(alloc, warnings, &connected, design);
    drop(connected);
    heard
}

// What some leads connect.
fn connected_by(alloc: Global, leads: &[Lead]) -> Result<Connected, NoMemory> {
    let led = led_by(alloc, leads)?;
    Ok(Connected {
        drawn: DrawnLeads::of(alloc, leads)?,
        blocks: Blocks::of(alloc, leads)?,
        led,
    })
}

// The first lead from another mark into each mark.
fn led_by(alloc: Global, leads: &[Lead]) -> Result<FirstLeads, NoMemory> {
    let mut led = FirstLeads::new(alloc);
    for lead in leads {
        note_first(&mut led, !is_at(lead.from, lead.to), lead)?;
    }
    Ok(led)
}

fn heard_of(
    alloc: Global,
    warnings: &[Warning],
    connected: &Connected,
    design: &Design<'_>,
) -> Result<Vec<Warning>, NoMemory> {
    let mut heard = Vec::new(alloc);
    for warning in warnings {
        if !is_noise(warning, connected, design) {
            heard.push(*warning)?;
        }
    }
    Ok(heard)
}

fn is_noise(warning: &Warning, connected: &Connected, design: &Design<'_>) -> bool {
    match (warning.word, warning.about) {
        (WarningWord::Own, About::Driven { mark, edge, .. }) => is_skew_of(design, mark.part, edge),
        (WarningWord::Both, About::Two(first, other)) => are_apart(connected, first, other),
        _ => false,
    }
}

// Whether an edge of the sheet of a part is a skew.
fn is_skew_of(design: &Design<'_>, part: u32, edge: Origin) -> bool {
    match sheet_at(design, part) {
        Some(sheet) => draws_skew(sheet.edges(), edge),
        None => false,
    }
}

// Whether two rules into one mark come from marks that no leads connect but those of the mark itself. Two inputs of a lone sheet, into which nothing leads, are not
// apart: a board may connect them.
fn are_apart(connected: &Connected, first: DrawnPlace, other: DrawnPlace) -> bool {
    match (connected.drawn.get(first), connected.drawn.get(other)) {
        (Some(first), Some(other)) => {
            (has_first(&connected.led, first.from) || has_first(&connected.led, other.from))
                && !connected.blocks.joins(first, other)
        }
        _ => false,
    }
}
