//! The text of a line.

ghost use Rattle.std.specs.Prelude.{◌≡◌, ◌++◌, ◌∷◌, [], OnOk, codes, if◌then◌else◌, int_lt};
ghost use Rattle.std.specs.List.{flat_map};
ghost use Rattle.std.specs.Option.{option_map_or};
ghost use Rattle.itv_base.specs.Numerals.{end_text, number_text};
ghost use Rattle.line_words.specs.Lines.{spaced};
ghost use Rattle.job_measure.specs.Text.{found_words, judged_words, line_text, separation_words, slack_words, verdict_word};

use crate::line::RunLine;
use crate::spare::FAR;
use crate::tally::{Found, RunTally, RunVerdict};
use itv_base::NoMemory;
use slack_report::{add_number, add_piece, add_signed, add_spaced};

/// Adds a line with its end.
pub fn add_line(text: &mut Vec<u8>, line: &RunLine) -> Result<(), NoMemory>
    ensures added { OnOk result (text.new.items ≡ text.old.items ++ line_text line.now) }
{
    add_piece(text, line.heading.as_slice())?;
    add_spaced(text, b"runs")?;
    add_number(text, line.tally.runs)?;
    add_separations(text, line.has_separations, &line.tally)?;
    add_judged(text, line.is_judged, &line.tally)?;
    add_piece(text, b"\n")
}

fn add_separations(
    text: &mut Vec<u8>,
    has_separations: bool,
    tally: &RunTally,
) -> Result<(), NoMemory>
    ensures { OnOk result (text.new.items ≡ text.old.items ++ flat_map spaced (separation_words has_separations tally.now)) }
{
    if !has_separations {
        return Ok(());
    }
    add_found(text, b"least", tally.least)?;
    add_found(text, b"greatest", tally.greatest)
}

fn add_judged(text: &mut Vec<u8>, is_judged: bool, tally: &RunTally) -> Result<(), NoMemory>
    ensures { OnOk result (text.new.items ≡ text.old.items ++ flat_map spaced (judged_words is_judged tally.now)) }
{
    if !is_judged {
        return Ok(());
    }
    add_counts(text, tally)?;
    add_first(text, tally.first)?;
    add_slack(text, tally.slack)?;
    add_verdict(text, tally.verdict())
}

fn add_counts(text: &mut Vec<u8>, tally: &RunTally) -> Result<(), NoMemory>
    ensures { OnOk result (text.new.items ≡ text.old.items ++ (spaced (codes "broken") ++ (spaced (number_text tally.now.broken)
        ++ (spaced (codes "near") ++ spaced (number_text tally.now.near))))) }
{
    add_spaced(text, b"broken")?;
    add_number(text, tally.broken)?;
    add_spaced(text, b"near")?;
    add_number(text, tally.near)
}

// Adds the first run that breaks the rule, if there is one.
fn add_first(text: &mut Vec<u8>, first: Option<u64>) -> Result<(), NoMemory>
    ensures { OnOk result (text.new.items ≡ text.old.items
        ++ flat_map spaced (option_map_or (λ run. codes "first" ∷ number_text run ∷ []) first [])) }
{
    match first {
        None => Ok(()),
        Some(run) => {
            add_spaced(text, b"first")?;
            add_number(text, run)
        }
    }
}

fn add_slack(text: &mut Vec<u8>, slack: Option<Found>) -> Result<(), NoMemory>
    ensures { OnOk result (text.new.items ≡ text.old.items ++ flat_map spaced (slack_words slack)) }
{
    match slack {
        None => Ok(()),
        Some(slack) => {
            add_spaced(text, b"slack")?;
            add_spare(text, slack.value)?;
            add_run(text, slack.run)
        }
    }
}

// Adds a space and what is left of an end, or a star if there is no end that could be missed.
fn add_spare(text: &mut Vec<u8>, spare: i64) -> Result<(), NoMemory>
    ensures { OnOk result (text.new.items ≡ text.old.items ++ spaced (end_text (if int_lt spare FAR then Some spare else None))) }
{
    if spare < FAR {
        add_signed(text, spare)
    } else {
        add_spaced(text, b"*")
    }
}

// Adds a word and a number with the run that shows it, if there is one.
fn add_found(text: &mut Vec<u8>, key: &[u8], found: Option<Found>) -> Result<(), NoMemory>
    ensures { OnOk result (text.new.items ≡ text.old.items ++ flat_map spaced (found_words key.now found)) }
{
    match found {
        None => Ok(()),
        Some(found) => {
            add_spaced(text, key)?;
            add_signed(text, found.value)?;
            add_run(text, found.run)
        }
    }
}

fn add_run(text: &mut Vec<u8>, run: u64) -> Result<(), NoMemory>
    ensures { OnOk result (text.new.items ≡ text.old.items ++ (spaced (codes "run") ++ spaced (number_text run))) }
{
    add_spaced(text, b"run")?;
    add_number(text, run)
}

/// Adds a space and the word of a verdict.
pub fn add_verdict(text: &mut Vec<u8>, verdict: RunVerdict) -> Result<(), NoMemory>
    ensures added { OnOk result (text.new.items ≡ text.old.items ++ spaced (verdict_word verdict)) }
{
    match verdict {
        RunVerdict::Pass => add_spaced(text, b"pass"),
        RunVerdict::Near => add_spaced(text, b"near"),
        RunVerdict::Fail => add_spaced(text, b"fail"),
        RunVerdict::Unseen => add_spaced(text, b"unseen"),
    }
}
