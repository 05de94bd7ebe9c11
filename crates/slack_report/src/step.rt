//! Reading the line that stands at a place, with the place after it.

ghost use Rattle.std.specs.Prelude.{◌≡◌, ◌+◌, ◌^◌, ◌<◌, ℤ, IfOk, IfSome, List, Some, codes, option_map};
ghost use Rattle.itv_base.specs.Names.{name_view};
ghost use Rattle.itv_base.specs.Numerals.{number_text};
ghost use Rattle.line_words.specs.Views.{texts};
ghost use Rattle.line_words.specs.Words.{keyed, one};
ghost use Rattle.slack_report.specs.Entry.{bound, finding, times};
ghost use Rattle.slack_report.specs.Step.Items.{step_view};
ghost use Rattle.slack_report.specs.Order.{next};
ghost use Rattle.slack_report.specs.Reading.{bound_in, finding_in, name_in, row_in, step_at, with_place, times_in};
ghost use Rattle.slack_report.specs.Step.Within.{IsSpot, IsPlaceWithin};
ghost use Rattle.slack_report.specs.Text.{which_word};

use crate::order::{
    after_bound, after_finding, after_row, after_times, after_verdict, before_event, before_row,
    in_bound, in_row,
};
use crate::owned::OwnedItem;
use crate::place::{Place, Spot};
use crate::read_list::{
    behind_number, bound_in, copy_name, flags_in, row_in, times_in, verdict_in,
};
use crate::read_word::{budget_in, ending_in, finding_in, name_in};
use crate::words::{Which, which_word};
use certificate::proof_in;
use itv_base::{EventName, MAX_EVENTS, MAX_ROWS, NoMemory, RowKind};
use line_words::{behind_word, number_in, only_word, open_in, two_words};
use requirements::Slack;
use std::alloc::Global;

#[tactic(auto, unfolding(crate::specs::Reading::entry_at))]
fn step_heading(words: &[&str]) -> Option<(OwnedItem, Place)>
    ensures is { option_map (λ s. step_view s) result ≡ step_at Place.Heading (texts words.now) }
    ensures within { IfSome result (λ s. IsPlaceWithin s.1) }
{
    let form = only_word(behind_word(behind_word(words, "itv")?, "report")?)?;
    if form != "1" {
        return None;
    }
    Some((OwnedItem::Heading, Place::Budget))
}

#[tactic(auto, unfolding(crate::specs::Reading::entry_at))]
fn step_budget(words: &[&str]) -> Option<(OwnedItem, Place)>
    ensures is { option_map (λ s. step_view s) result ≡ step_at Place.Budget (texts words.now) }
    ensures within { IfSome result (λ s. IsPlaceWithin s.1) }
{
    let most = budget_in(only_word(behind_word(words, "budget")?)?)?;
    Some((OwnedItem::Budget(most), Place::Events))
}

#[tactic(auto, unfolding(crate::specs::Reading::entry_at))]
fn step_events(words: &[&str]) -> Option<(OwnedItem, Place)>
    ensures is { option_map (λ s. step_view s) result ≡ step_at Place.Events (texts words.now) }
    ensures within { IfSome result (λ s. IsPlaceWithin s.1) }
{
    let word = only_word(behind_word(words, "events")?)?;
    let count = number_in(u64::from(MAX_EVENTS), word)? as u32;
    Some((OwnedItem::Events(count), before_event(count, 0, count)))
}

#[tactic(auto, unfolding(crate::specs::Reading::entry_at))]
fn step_rows(events: u32, words: &[&str]) -> Option<(OwnedItem, Place)>
    ensures is { option_map (λ s. step_view s) result ≡ step_at (Place.Rows events) (texts words.now) }
    ensures within { IfSome result (λ s. IsPlaceWithin s.1) }
{
    let word = only_word(behind_word(words, "rows")?)?;
    let count = number_in(u64::from(MAX_ROWS), word)? as u32;
    Some((OwnedItem::Rows(count), before_row(events, 0, count)))
}

fn step_finding(events: u32, words: &[&str]) -> Option<(OwnedItem, Place)>
    ensures is { option_map (λ s. step_view s) result ≡ with_place (Place.Finding events)
        (option_map finding (keyed (codes "finding") (one finding_in) (texts words.now))) }
    ensures within { IfSome result (λ s. IsPlaceWithin s.1) }
{
    let word = finding_in(only_word(behind_word(words, "finding")?)?)?;
    Some((OwnedItem::Finding(word), after_finding(events, word)))
}

fn step_bound(spot: Spot, which: Which, words: &[&str]) -> Option<(OwnedItem, Place)>
    requires { IsSpot spot }
    ensures is { option_map (λ s. step_view s) result ≡ with_place (Place.Bound spot which)
        (option_map (bound which) (keyed (which_word which) bound_in (texts words.now))) }
    ensures within { IfSome result (λ s. IsPlaceWithin s.1) }
{
    let value = bound_in(behind_word(words, which_word(which))?)?;
    Some((OwnedItem::Bound(which, value), in_bound(spot, which, value)))
}

#[tactic(auto, unfolding(crate::specs::Reading::entry_at))]
fn step_verdict(spot: Spot, words: &[&str]) -> Option<(OwnedItem, Place)>
    requires { IsSpot spot }
    ensures is { option_map (λ s. step_view s) result ≡ step_at (Place.Verdict spot) (texts words.now) }
    ensures within { IfSome result (λ s. IsPlaceWithin s.1) }
{
    let word = verdict_in(behind_word(words, "verdict")?)?;
    Some((OwnedItem::Verdict(word), after_verdict(spot, word)))
}

#[tactic(auto, unfolding(crate::specs::Reading::entry_at))]
fn step_slack(spot: Spot, words: &[&str]) -> Option<(OwnedItem, Place)>
    requires { IsSpot spot }
    ensures is { option_map (λ s. step_view s) result ≡ step_at (Place.Slack spot) (texts words.now) }
    ensures within { IfSome result (λ s. IsPlaceWithin s.1) }
{
    let (low, high) = two_words(behind_word(words, "slack")?)?;
    let low = open_in(low)?;
    let high = open_in(high)?;
    Some((OwnedItem::Slack(Slack { low, high }), after_row(spot)))
}

#[tactic(auto, unfolding(crate::specs::Reading::entry_at))]
fn step_end(words: &[&str]) -> Option<(OwnedItem, Place)>
    ensures is { option_map (λ s. step_view s) result ≡ step_at Place.End (texts words.now) }
    ensures within { IfSome result (λ s. IsPlaceWithin s.1) }
{
    let word = ending_in(only_word(behind_word(words, "end")?)?)?;
    Some((OwnedItem::End(word), Place::Nothing))
}

// ---- lines that own something

fn event_name_in<'a>(number: u32, words: &[&'a str]) -> Option<EventName<'a>>
    ensures { option_map (λ n. name_view n) result
        ≡ keyed (codes "event") (keyed (number_text number) (one name_in)) (texts words.now) }
{
    name_in(only_word(behind_number(behind_word(words, "event")?, number)?)?)
}

#[tactic(auto, unfolding(crate::specs::Reading::entry_at))]
fn step_event(
    alloc: Global,
    events: u32,
    number: u32,
    more: u32,
    words: &[&str],
) -> Result<Option<(OwnedItem, Place)>, NoMemory>
    requires { number + more + 1 < 2 ^ 32 }
    ensures is { IfOk result (λ o. option_map (λ s. step_view s) o ≡ step_at (Place.Event events number more) (texts words.now)) }
    ensures within { IfOk result (λ o. IfSome o (λ s. IsPlaceWithin s.1)) }
{
    let Some(name) = event_name_in(number, words) else {
        return Ok(None);
    };
    let item = OwnedItem::Event(number, copy_name(alloc, name)?);
    Ok(Some((item, before_event(events, number + 1, more))))
}

fn asked_in<'a>(number: u32, words: &[&'a str]) -> Option<(RowKind, EventName<'a>, EventName<'a>)>
    ensures { option_map (λ x. (x.0, name_view x.1, name_view x.2)) result
        ≡ keyed (codes "row") (keyed (number_text number) row_in) (texts words.now) }
{
    row_in(behind_number(behind_word(words, "row")?, number)?)
}

#[tactic(auto, unfolding(crate::specs::Reading::entry_at))]
fn step_row(
    alloc: Global,
    events: u32,
    number: u32,
    more: u32,
    words: &[&str],
) -> Result<Option<(OwnedItem, Place)>, NoMemory>
    requires { number + more + 1 < 2 ^ 32 }
    ensures is { IfOk result (λ o. option_map (λ s. step_view s) o ≡ step_at (Place.Row events number more) (texts words.now)) }
    ensures within { IfOk result (λ o. IfSome o (λ s. IsPlaceWithin s.1)) }
{
    let Some((kind, from, to)) = asked_in(number, words) else {
        return Ok(None);
    };
    let behind = in_row(events, number, more, &kind);
    let from = copy_name(alloc, from)?;
    let to = copy_name(alloc, to)?;
    Ok(Some((OwnedItem::Row(number, kind, from, to), behind)))
}

// The line of times at a place. `behind` is the place after it.
fn step_times(
    alloc: Global,
    place: Place,
    events: u32,
    behind: Place,
    words: &[&str],
) -> Result<Option<(OwnedItem, Place)>, NoMemory>
    requires leads { (list : List ℤ) → next place (times list) ≡ Some behind }
    requires within { IsPlaceWithin behind }
    ensures is { IfOk result (λ o. option_map (λ s. step_view s) o
        ≡ with_place place (option_map times (keyed (codes "times") (times_in events) (texts words.now)))) }
    ensures within { IfOk result (λ o. IfSome o (λ s. IsPlaceWithin s.1)) }
{
    let Some(words) = behind_word(words, "times") else {
        return Ok(None);
    };
    match times_in(alloc, events, words)? {
        None => Ok(None),
        Some(list) => Ok(Some((OwnedItem::Times(list), behind))),
    }
}

#[tactic(auto, unfolding(crate::specs::Reading::entry_at))]
fn step_raise(
    alloc: Global,
    spot: Spot,
    which: Which,
    words: &[&str],
) -> Result<Option<(OwnedItem, Place)>, NoMemory>
    requires { IsSpot spot }
    ensures is { IfOk result (λ o. option_map (λ s. step_view s) o ≡ step_at (Place.Raise spot which) (texts words.now)) }
    ensures within { IfOk result (λ o. IfSome o (λ s. IsPlaceWithin s.1)) }
{
    let Some(words) = behind_word(words, "raise") else {
        return Ok(None);
    };
    match flags_in(alloc, spot.events, words)? {
        None => Ok(None),
        Some(set) => Ok(Some((OwnedItem::Raise(set), after_bound(spot, which)))),
    }
}

#[tactic(auto, unfolding(crate::specs::Reading::entry_at))]
fn step_found(
    alloc: Global,
    events: u32,
    words: &[&str],
) -> Result<Option<(OwnedItem, Place)>, NoMemory>
    ensures is { IfOk result (λ o. option_map (λ s. step_view s) o ≡ step_at (Place.Finding events) (texts words.now)) }
    ensures within { IfOk result (λ o. IfSome o (λ s. IsPlaceWithin s.1)) }
{
    match proof_in(alloc, words)? {
        Some(line) => Ok(Some((OwnedItem::Proof(line), Place::Finding { events }))),
        None => Ok(step_finding(events, words)),
    }
}

#[tactic(auto, unfolding(crate::specs::Reading::entry_at))]
fn step_bounded(
    alloc: Global,
    spot: Spot,
    which: Which,
    words: &[&str],
) -> Result<Option<(OwnedItem, Place)>, NoMemory>
    requires { IsSpot spot }
    ensures is { IfOk result (λ o. option_map (λ s. step_view s) o ≡ step_at (Place.Bound spot which) (texts words.now)) }
    ensures within { IfOk result (λ o. IfSome o (λ s. IsPlaceWithin s.1)) }
{
    match proof_in(alloc, words)? {
        Some(line) => Ok(Some((OwnedItem::Proof(line), Place::Bound { spot, which }))),
        None => Ok(step_bound(spot, which, words)),
    }
}

/// The line that the words are and the place after it, or none if no such line may stand at the place.
#[tactic(auto, unfolding(crate::specs::Reading::entry_at))]
pub fn step_at(
    alloc: Global,
    place: Place,
    words: &[&str],
) -> Result<Option<(OwnedItem, Place)>, NoMemory>
    requires { IsPlaceWithin place }
    ensures is { IfOk result (λ o. option_map (λ s. step_view s) o ≡ step_at place (texts words.now)) }
    ensures within { IfOk result (λ o. IfSome o (λ s. IsPlaceWithin s.1)) }
{
    match place {
        Place::Heading => Ok(step_heading(words)),
        Place::Budget => Ok(step_budget(words)),
        Place::Events => Ok(step_events(words)),
        Place::Event {
            events,
            number,
            more,
        } => step_event(alloc, events, number, more, words),
        Place::Finding { events } => step_found(alloc, events, words),
        Place::FoundTimes { events } => {
            step_times(alloc, place, events, Place::Rows { events }, words)
        }
        Place::Rows { events } => Ok(step_rows(events, words)),
        Place::Row {
            events,
            number,
            more,
        } => step_row(alloc, events, number, more, words),
        Place::Bound { spot, which } => step_bounded(alloc, spot, which, words),
        Place::Times {
            spot,
            which,
            raises,
        } => step_times(
            alloc,
            place,
            spot.events,
            after_times(spot, which, raises),
            words,
        ),
        Place::Raise { spot, which } => step_raise(alloc, spot, which, words),
        Place::Verdict { spot } => Ok(step_verdict(spot, words)),
        Place::FailTimes { spot } => {
            step_times(alloc, place, spot.events, Place::Slack { spot }, words)
        }
        Place::Slack { spot } => Ok(step_slack(spot, words)),
        Place::End => Ok(step_end(words)),
        Place::Nothing => Ok(None),
    }
}
