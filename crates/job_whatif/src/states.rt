//! The states of a session: the lines of a finding, of its rows, and of what an edit did.

ghost use Rattle.std.specs.Prelude.{◌≡◌, ◌++◌, ◌≤◌, All, OnOk, codes, length};
ghost use Rattle.itv_base.specs.Numerals.{number_text};
ghost use Rattle.line_words.specs.Lines.{ended, line_of, spaced};
ghost use Rattle.slack_report.specs.Entry.{finding};
ghost use Rattle.slack_report.specs.Text.{entry_text};
ghost use Rattle.drawn_numbers.specs.Numbers.{drawn_number_text};
ghost use Rattle.range_edits.specs.Subject.{subject_text};
ghost use Rattle.whatif.specs.declared.session.TheConstants.{MAX_PAIRS};
ghost use Rattle.job_whatif.specs.Step.{IsNoteOf};
ghost use Rattle.job_whatif.specs.Text.{found_text, state_words, states_text};

use crate::rows::add_rows;
use drawn_numbers::{CauseName, DrawnNumber};
use itoa::Buffer;
use itv_base::{NoMemory, RowKind, number_text};
use range_edits::{RangeEdit, Subject};
use requirements::Consistency;
use slack_report::{add_number, add_piece, add_range, add_spaced};
use whatif::{Change, Note};

/// Adds the states after edits, given their notes. The first of these states has number 1.
pub fn add_states(
    text: &mut Vec<u8>,
    kinds: &[RowKind],
    edits: &[RangeEdit],
    notes: &[Note],
) -> Result<(), NoMemory>
    requires each { All (IsNoteOf kinds.now) notes.now }
    requires count { length notes.now ≡ length edits.now }
    requires few { length kinds.now ≤ MAX_PAIRS }
    ensures added { OnOk result (text.new.items ≡ text.old.items ++ states_text 1 kinds.now edits.now notes.now) }
{
    for k in 0..edits.len() {
        add_state(text, k as u64 + 1, &edits[k], &notes[k])?;
        add_found(text, kinds, &notes[k])?;
    }
    Ok(())
}

/// Adds the finding of a state, and its rows.
pub fn add_found(text: &mut Vec<u8>, kinds: &[RowKind], note: &Note) -> Result<(), NoMemory>
    requires of { IsNoteOf kinds.now note.now }
    requires few { length kinds.now ≤ MAX_PAIRS }
    ensures added { OnOk result (text.new.items ≡ text.old.items ++ found_text kinds.now note.now.found note.now.answers) }
{
    add_finding(text, note.found)?;
    add_rows(text, kinds, &note.answers)
}

// Adds the line of a finding.
#[tactic(auto, unfolding(slack_report::specs::Text::words_of))]
fn add_finding(text: &mut Vec<u8>, found: Consistency) -> Result<(), NoMemory>
    ensures { OnOk result (text.new.items ≡ text.old.items ++ entry_text (finding found)) }
{
    match found {
        Consistency::Consistent => add_piece(text, b"finding consistent\n"),
        Consistency::Inconsistent => add_piece(text, b"finding inconsistent\n"),
        Consistency::Open => add_piece(text, b"finding unsettled\n"),
    }
}

// ---- the line that begins a state after an edit

fn add_state(text: &mut Vec<u8>, number: u64, edit: &RangeEdit, note: &Note) -> Result<(), NoMemory>
    ensures { OnOk result (text.new.items ≡ text.old.items ++ ended (line_of (state_words number edit.now note.now))) }
{
    add_piece(text, b"state")?;
    add_number(text, number)?;
    add_subject(text, &edit.subject)?;
    add_range(text, edit.range)?;
    add_change(text, note.change)?;
    add_piece(text, b"\n")
}

// Adds a space and what an edit names.
fn add_subject(text: &mut Vec<u8>, subject: &Subject) -> Result<(), NoMemory>
    ensures { OnOk result (text.new.items ≡ text.old.items ++ spaced (subject_text subject.now)) }
{
    match subject {
        Subject::Cause(name) => add_cause(text, *name),
        Subject::Number(number) => add_drawn(text, number),
    }
}

// Adds a space, a constraint and its cause.
fn add_cause(text: &mut Vec<u8>, name: CauseName) -> Result<(), NoMemory>
    ensures { OnOk result (text.new.items ≡ text.old.items ++ spaced (number_text name.constraint ++ (codes "." ++ number_text name.cause))) }
{
    add_number(text, u64::from(name.constraint))?;
    add_piece(text, b".")?;
    add_digits(text, u64::from(name.cause))
}

// Adds a space and what a number is called.
fn add_drawn(text: &mut Vec<u8>, number: &DrawnNumber) -> Result<(), NoMemory>
    ensures { OnOk result (text.new.items ≡ text.old.items ++ spaced (drawn_number_text number.now)) }
{
    match number {
        DrawnNumber::Edge { part, edge } => {
            add_spaced(text, part.as_text().as_bytes())?;
            add_called(text, b"edge", *edge)
        }
        DrawnNumber::Net(net) => add_called(text, b"net", *net),
        DrawnNumber::Wire(wire) => add_called(text, b"wire", *wire),
    }
}

// Adds a space, a word and a number after it.
fn add_called(text: &mut Vec<u8>, word: &[u8], number: u64) -> Result<(), NoMemory>
    ensures { OnOk result (text.new.items ≡ text.old.items ++ (spaced word.now ++ spaced (number_text number))) }
{
    add_spaced(text, word)?;
    add_number(text, number)
}

// Adds how many bounds were kept, and how many were searched anew.
fn add_change(text: &mut Vec<u8>, change: Change) -> Result<(), NoMemory>
    ensures { OnOk result (text.new.items ≡ text.old.items ++ (spaced (codes "kept") ++ (spaced (number_text change.kept)
        ++ (spaced (codes "searched") ++ spaced (number_text change.searched))))) }
{
    add_spaced(text, b"kept")?;
    add_number(text, u64::from(change.kept))?;
    add_spaced(text, b"searched")?;
    add_number(text, u64::from(change.searched))
}

fn add_digits(text: &mut Vec<u8>, number: u64) -> Result<(), NoMemory>
    ensures { OnOk result (text.new.items ≡ text.old.items ++ number_text number) }
{
    let mut digits = Buffer::new();
    add_piece(text, number_text(number, &mut digits).as_bytes())
}
