//! Reading a text line by line.

ghost use Rattle.std.specs.Prelude.{◌≡◌, ◌&&◌, ◌==◌, IfOk, IfSome, Ok, length, option_map};
ghost use Rattle.line_words.specs.Words.{split_words};
ghost use Rattle.slack_report.specs.Items.{views};
ghost use Rattle.slack_report.specs.Step.Items.{step_view};
ghost use Rattle.slack_report.specs.Reading.{is_nothing, report_in, step_at};
ghost use Rattle.slack_report.specs.Step.Answers.{IsItemsRead};
ghost use Rattle.slack_report.specs.Step.Within.{IsPlaceWithin};

use crate::fault::ReportFault;
use crate::owned::OwnedItem;
use crate::place::Place;
use crate::step::step_at;
use itv_base::NoMemory;
use line_words::{cut_line, split_words};
use std::alloc::Global;

fn read_text(
    alloc: Global,
    place: Place,
    line: &str,
) -> Result<Option<(OwnedItem, Place)>, NoMemory>
    requires { IsPlaceWithin place }
    ensures is { IfOk result (λ o. option_map (λ s. step_view s) o ≡ step_at place (split_words line.now)) }
    ensures within { IfOk result (λ o. IfSome o (λ s. IsPlaceWithin s.1)) }
{
    let words = split_words(alloc, line)?;
    step_at(alloc, place, &words)
}

// The line that stands at a place, and the place after it. None if the bytes are not UTF-8 or no such line may stand
// there.
fn read_line(
    alloc: Global,
    place: Place,
    line: &[u8],
) -> Result<Option<(OwnedItem, Place)>, NoMemory>
    requires { IsPlaceWithin place }
    ensures is { IfOk result (λ o. option_map (λ s. step_view s) o ≡ step_at place (split_words line.now)) }
    ensures within { IfOk result (λ o. IfSome o (λ s. IsPlaceWithin s.1)) }
{
    match str::from_utf8(line) {
        Ok(line) => read_text(alloc, place, line),
        Err(_) => Ok(None),
    }
}

// Whether nothing follows at a place.
fn is_whole(place: Place) -> bool
    ensures { result ≡ is_nothing place }
{
    matches!(place, Place::Nothing)
}

// Whether a text ends where its report ends.
fn is_end(place: Place, rest: &[u8]) -> bool
    ensures { result ≡ (is_nothing place && length rest.now == 0) }
{
    is_whole(place) && rest.is_empty()
}

/// Reads the lines of a report, or returns the first line, counted from 1, at which no report can go on.
pub fn read_items(alloc: Global, bytes: &[u8]) -> Result<Vec<OwnedItem>, ReportFault>
    ensures { IsItemsRead result (report_in bytes.now) }
{
    let mut items = Vec::new(alloc);
    let mut place = Place::Heading;
    let mut rest = bytes;
    while let Some((line, behind)) = cut_line(rest) {
        let Some((item, next)) = read_line(alloc, place, line)? else {
            return Err(ReportFault::Line(items.len() as u64 + 1));
        };
        items.push(item)?;
        place = next;
        rest = behind;
    }
    if !is_end(place, rest) {
        return Err(ReportFault::Line(items.len() as u64 + 1));
    }
    Ok(items)
}
