//! Adding the lines of numbers after a text that is gathered.

ghost use Rattle.std.specs.Prelude.{◌≡◌, ◌≤◌, ◌∷◌, ◌++◌, [], OnOk, codes, length};
ghost use Rattle.std.specs.List.{flat_map};
ghost use Rattle.std.specs.Option.{option_map_or};
ghost use Rattle.line_words.specs.Lines.{spaced};
ghost use Rattle.drawn_numbers.specs.Numbers.{drawn_number_text};
ghost use Rattle.slack_report.specs.Text.{range_word};
ghost use Rattle.job_margin.specs.Step.{numbers_text};
ghost use Rattle.job_margin.specs.Text.{margin_line, margins_of, number_note, how_far};
ghost use Rattle.moves.specs.declared.span.SpanFound.{SpanFound as Span};

use crate::number_found::NumberFound;
use crate::words::{add_drawn, add_some};
use drawn_numbers::DrawnNumber;
use itv_base::NoMemory;
use moves::{Margin, NumberSeen, SpanFound};
use origin::{Notes, Origin};
use slack_report::{add_number, add_piece, add_range, add_signed, add_spaced};

/// Adds the lines of the numbers of which something is found, which are the first ones.
pub fn add_numbers<N: Notes>(
    text: &mut Vec<u8>,
    notes: &N,
    seen: &[NumberSeen],
    found: &[NumberFound],
) -> Result<(), NoMemory>
    requires count { length found.now ≤ length seen.now }
    ensures added { OnOk result (text.new.items ≡ text.old.items ++ numbers_text (N.noted notes.now) seen.now found.now) }
{
    for k in 0..found.len() {
        add_found(text, notes, &seen[k], &found[k])?;
    }
    Ok(())
}

// Adds the lines of a number.
fn add_found<N: Notes>(
    text: &mut Vec<u8>,
    notes: &N,
    seen: &NumberSeen,
    found: &NumberFound,
) -> Result<(), NoMemory>
    ensures { OnOk result (text.new.items ≡ text.old.items ++ flat_map (margin_line (N.noted notes.now) seen.now) (margins_of found.now)) }
{
    add_end(text, notes, seen, "low", found.ends.low)?;
    add_end(text, notes, seen, "high", found.ends.high)?;
    add_span(text, notes, seen, found.span)
}

// Adds the line of an end, if something was found of it.
fn add_end<N: Notes>(
    text: &mut Vec<u8>,
    notes: &N,
    seen: &NumberSeen,
    which: &str,
    margin: Option<Margin>,
) -> Result<(), NoMemory>
    ensures { OnOk result (text.new.items ≡ text.old.items
        ++ flat_map (margin_line (N.noted notes.now) seen.now) (option_map_or (λ margin. (which.now, margin) ∷ []) margin [])) }
{
    match margin {
        None => Ok(()),
        Some(margin) => add_line(text, notes, seen, which, margin),
    }
}

// Adds the lines of the values of a number, if something was found of them.
fn add_span<N: Notes>(
    text: &mut Vec<u8>,
    notes: &N,
    seen: &NumberSeen,
    span: Option<SpanFound>,
) -> Result<(), NoMemory>
    ensures { OnOk result (text.new.items ≡ text.old.items ++ flat_map (margin_line (N.noted notes.now) seen.now)
        (option_map_or (λ (span : Span). (codes "down", span.down) ∷ (codes "up", span.up) ∷ []) span [])) }
{
    match span {
        None => Ok(()),
        Some(span) => {
            add_line(text, notes, seen, "down", span.down)?;
            add_line(text, notes, seen, "up", span.up)
        }
    }
}

// Adds the line of an end or a direction.
fn add_line<N: Notes>(
    text: &mut Vec<u8>,
    notes: &N,
    seen: &NumberSeen,
    which: &str,
    margin: Margin,
) -> Result<(), NoMemory>
    ensures { OnOk result (text.new.items ≡ text.old.items ++ margin_line (N.noted notes.now) seen.now (which.now, margin)) }
{
    add_piece(text, which.as_bytes())?;
    add_amount(text, margin)?;
    add_seen(text, seen)?;
    add_row(text, margin)?;
    add_some(text, note_of(notes, &seen.number))?;
    add_piece(text, b"\n")?;
    Ok(())
}

// ---- parts of a line

// Adds a space and how far something may be moved.
fn add_amount(text: &mut Vec<u8>, margin: Margin) -> Result<(), NoMemory>
    ensures { OnOk result (text.new.items ≡ text.old.items ++ spaced (how_far margin).0) }
{
    match margin {
        Margin::Free => add_spaced(text, b"*"),
        Margin::Until { by, .. } => add_signed(text, by),
        Margin::UntilContradiction { by } => add_signed(text, by),
        Margin::Never => add_spaced(text, b"none"),
        Margin::Limit => add_spaced(text, b"limit"),
        Margin::Spent => add_spaced(text, b"spent"),
    }
}

// Adds a space and what a number is called, and a space and its range.
fn add_seen(text: &mut Vec<u8>, seen: &NumberSeen) -> Result<(), NoMemory>
    ensures { OnOk result (text.new.items ≡ text.old.items
        ++ (spaced (drawn_number_text seen.now.number) ++ spaced (range_word seen.now.range))) }
{
    add_drawn(text, &seen.number)?;
    add_range(text, seen.range)
}

// Adds the row that breaks beyond, if there is one.
fn add_row(text: &mut Vec<u8>, margin: Margin) -> Result<(), NoMemory>
    ensures { OnOk result (text.new.items ≡ text.old.items ++ flat_map spaced (how_far margin).1) }
{
    match margin {
        Margin::Until { row, .. } => {
            add_spaced(text, b"row")?;
            add_number(text, u64::from(row))
        }
        Margin::Free
        | Margin::UntilContradiction { .. }
        | Margin::Never
        | Margin::Limit
        | Margin::Spent => Ok(()),
    }
}

// The note of what draws a number. It is empty if there is none.
fn note_of<'a, N: Notes>(notes: &'a N, number: &DrawnNumber) -> &'a str
    ensures { result.now ≡ number_note (N.noted notes.now) number.now }
{
    match number {
        DrawnNumber::Edge { part, edge } => notes.note(part.as_text(), Origin::Edge(*edge)),
        DrawnNumber::Net(net) => notes.note("", Origin::Pin { net: *net, pin: 0 }),
        DrawnNumber::Wire(wire) => notes.note("", Origin::Wire(*wire)),
    }
}
