//! The next stage after a line that is no proof line, or none if the line is wrong here.

ghost use Rattle.std.specs.Prelude.{◌≡◌, ◌↔◌, ◌<◌, ◌≤◌, ◌^◌, All, IsTrue, Some, length, slice_get};
ghost use Rattle.event_graph.specs.Times.{IsTime};
ghost use Rattle.requirements.specs.Bounds.{HasTimes};
ghost use Rattle.itv_base.specs.Names.{name_view};
ghost use Rattle.slack_report.specs.Entry.{event, row as row_line};
ghost use Rattle.slack_report.specs.Items.{item_view};
ghost use Rattle.right_report.specs.Right.ReportState.{at_end, at_raise, behind_times};
ghost use Rattle.drawn_networks.specs.Drawn.{Drawn, IsRowOf, name_of};
ghost use Rattle.job_check.specs.Step.Stages.{AreBounded, Decides, Fits, IsLineStage, IsNextBound, IsCurrentRow, at_of, next_in, current_in};

use crate::names::{same_kind, same_name};
use crate::stage::{CurrentRow, NextBound, Stage, behind_past, behind_verdict, bounded};
use crate::times::{are_known, are_times, attains, breaks, can_rise};
use drawn_networks::{DrawnNetwork, Row};
use itv_base::{EventId, EventName, Range};
use requirements::{BothBounds, Bound, Consistency, judge as verdict_of, slack as slack_of};
use right_report::ReportTally;
use slack_report::{EndWord, Item};

/// The next stage after a line, or none if the line may not follow. No proof line may come at the stage.
pub fn judge<'a>(drawn: &DrawnNetwork, stage: &Stage<'a>, item: &Item<'a>) -> Option<Stage<'a>>
    requires line { IsLineStage drawn.now stage.now }
    requires fits { Fits drawn.now stage.now }
    ensures decides { Decides drawn.now (at_of drawn.now stage.now) (item_view item.now) result }
{
    match stage {
        Stage::Heading => judge_heading(drawn, item),
        Stage::Budget => judge_budget(drawn, item),
        Stage::Events => judge_events(drawn, item),
        Stage::Event(number) => judge_event(drawn, *number, item),
        Stage::Known => judge_known(drawn, item),
        Stage::Rows(word) => judge_rows(drawn, *word, item),
        Stage::Row { tally, number } => judge_row(drawn, *tally, *number, item),
        // Proof lines may stand before a bound.
        Stage::Bound { .. } => unreachable!(),
        Stage::Times {
            current,
            coming,
            value,
        } => judge_times(drawn, current, *coming, *value, item),
        Stage::Raise {
            current,
            coming,
            times,
        } => judge_raise(drawn, current, *coming, times, item),
        Stage::Verdict {
            current,
            range,
            both,
        } => judge_verdict(drawn, current, *range, both, item),
        Stage::Past {
            current,
            range,
            both,
        } => judge_past(drawn, current, *range, both, item),
        Stage::Slack {
            tally,
            number,
            range,
            both,
        } => judge_slack(drawn, *tally, *number, *range, both, item),
        Stage::End(word) => judge_end(drawn, *word, item),
        Stage::Done => None,
    }
}

fn judge_heading(drawn: &DrawnNetwork, item: &Item<'_>) -> Option<Stage<'static>>
    ensures decides { Decides drawn.now (at_of drawn.now Stage.Heading) (item_view item.now) result }
{
    match item {
        Item::Heading => Some(Stage::Budget),
        _ => None,
    }
}

fn judge_budget(drawn: &DrawnNetwork, item: &Item<'_>) -> Option<Stage<'static>>
    ensures decides { Decides drawn.now (at_of drawn.now Stage.Budget) (item_view item.now) result }
{
    match item {
        Item::Budget { .. } => Some(Stage::Events),
        _ => None,
    }
}

fn judge_events(drawn: &DrawnNetwork, item: &Item<'_>) -> Option<Stage<'static>>
    ensures decides { Decides drawn.now (at_of drawn.now Stage.Events) (item_view item.now) result }
{
    match item {
        Item::Events { count } if *count == drawn.network().events() => Some(Stage::Event(0)),
        _ => None,
    }
}

fn judge_event(drawn: &DrawnNetwork, number: u32, item: &Item<'_>) -> Option<Stage<'static>>
    requires there { number < drawn.now.net.events }
    ensures decides { Decides drawn.now (at_of drawn.now (Stage.Event number)) (item_view item.now) result }
{
    // The number of events fits in 32 bits, and so does the next number.
    let _events = drawn.network().events();
    if is_event(item, number, drawn.name(EventId(number))) {
        return Some(Stage::Event(number + 1));
    }
    None
}

// Whether a line names an event.
fn is_event(item: &Item<'_>, number: u32, name: EventName<'_>) -> bool
    ensures event { IsTrue result ↔ (item_view item.now ≡ event number (name_view name.entry)) }
{
    match item {
        Item::Event {
            number: written,
            name: written_name,
        } => *written == number && same_name(*written_name, name),
        _ => false,
    }
}

fn judge_known(drawn: &DrawnNetwork, item: &Item<'_>) -> Option<Stage<'static>>
    ensures decides { Decides drawn.now (at_of drawn.now Stage.Known) (item_view item.now) result }
{
    match item {
        Item::Times(list) if are_known(drawn.network(), list) => {
            Some(Stage::Rows(Consistency::Consistent))
        }
        _ => None,
    }
}

fn judge_rows(drawn: &DrawnNetwork, word: Consistency, item: &Item<'_>) -> Option<Stage<'static>>
    ensures decides { Decides drawn.now (at_of drawn.now (Stage.Rows word)) (item_view item.now) result }
{
    match item {
        Item::Rows { count } if u64::from(*count) == drawn.rows().len() => Some(Stage::Row {
            tally: ReportTally::new(word),
            number: 0,
        }),
        _ => None,
    }
}

fn judge_row(
    drawn: &DrawnNetwork,
    tally: ReportTally,
    number: u64,
    item: &Item<'_>,
) -> Option<Stage<'static>>
    requires within { number ≤ length drawn.now.rows }
    ensures decides { Decides drawn.now (at_of drawn.now (Stage.Row tally number)) (item_view item.now) result }
{
    let rows = drawn.rows();
    if number == rows.len() {
        return judge_end(drawn, tally.end_word(), item);
    }
    judge_row_line(drawn, tally, number, rows.get(number), item)
}

fn judge_row_line(
    drawn: &DrawnNetwork,
    tally: ReportTally,
    number: u64,
    row: &Row,
    item: &Item<'_>,
) -> Option<Stage<'static>>
    requires row { slice_get drawn.now.rows number ≡ Some row.now }
    requires between { IsRowOf drawn.now.net row.now }
    ensures decides { Decides drawn.now (at_of drawn.now (Stage.Row tally number)) (item_view item.now) result }
{
    if is_row(item, number, drawn, row) {
        return Some(Stage::Bound {
            current: CurrentRow {
                tally,
                number,
                row: *row,
            },
            coming: NextBound::Greatest,
        });
    }
    None
}

// Whether a line says what is asked of a row.
fn is_row(item: &Item<'_>, number: u64, drawn: &DrawnNetwork, row: &Row) -> bool
    requires between { IsRowOf drawn.now.net row.now }
    ensures row { IsTrue result ↔ (item_view item.now
        ≡ row_line number row.now.kind (name_of drawn.now row.now.from) (name_of drawn.now row.now.to)) }
    ensures small { IsTrue result → number < 2 ^ 32 }
{
    match item {
        Item::Row {
            number: written,
            kind,
            from,
            to,
        } => {
            u64::from(*written) == number
                && same_kind(kind, &row.kind)
                && same_name(*from, drawn.name(row.from))
                && same_name(*to, drawn.name(row.to))
        }
        _ => false,
    }
}

fn judge_end(drawn: &DrawnNetwork, word: EndWord, item: &Item<'_>) -> Option<Stage<'static>>
    ensures decides { Decides drawn.now (at_end word) (item_view item.now) result }
{
    match item {
        Item::End(written) if *written == word => Some(Stage::Done),
        _ => None,
    }
}

fn judge_times<'a>(
    drawn: &DrawnNetwork,
    current: &CurrentRow,
    coming: NextBound,
    value: Bound,
    item: &Item<'a>,
) -> Option<Stage<'a>>
    requires current_row { IsCurrentRow drawn.now current.now }
    requires coming { IsNextBound coming }
    requires times { HasTimes value }
    ensures decides { Decides drawn.now (at_of drawn.now (Stage.Times current.now coming value)) (item_view item.now) result }
{
    match item {
        Item::Times(list)
            if are_times(drawn.network(), &current.row, list)
                && attains(&current.row, value, list) => {
            Some(behind_times(current, coming, value, list))
        }
        _ => None,
    }
}

// The stage after the times of a bound.
fn behind_times<'a>(
    current: &CurrentRow,
    coming: NextBound,
    value: Bound,
    times: &'a [i64],
) -> Stage<'a>
    requires number { current.now.number < 2 ^ 32 }
    ensures stage { (drawn : Drawn) → at_of drawn result ≡ behind_times (current_in drawn current.now) (next_in coming) value times.now }
    ensures fits { (drawn : Drawn) → IsCurrentRow drawn current.now → IsNextBound coming → HasTimes value → All IsTime times.now
        → length times.now ≡ drawn.net.events → Fits drawn result }
{
    match value {
        Bound::Unbounded => Stage::Raise {
            current: *current,
            coming,
            times,
        },
        _ => bounded(current, coming, value),
    }
}

fn judge_raise(
    drawn: &DrawnNetwork,
    current: &CurrentRow,
    coming: NextBound,
    times: &[i64],
    item: &Item<'_>,
) -> Option<Stage<'static>>
    requires current_row { IsCurrentRow drawn.now current.now }
    requires coming { IsNextBound coming }
    requires times { All IsTime times.now }
    requires count { length times.now ≡ drawn.now.net.events }
    ensures decides { Decides drawn.now (at_raise (current_in drawn.now current.now) (next_in coming) times.now) (item_view item.now) result }
{
    match item {
        Item::Raise(set) if can_rise(drawn.network(), &current.row, coming, times, set) => {
            Some(bounded(current, coming, Bound::Unbounded))
        }
        _ => None,
    }
}

fn judge_verdict(
    drawn: &DrawnNetwork,
    current: &CurrentRow,
    range: Range,
    both: &BothBounds,
    item: &Item<'_>,
) -> Option<Stage<'static>>
    requires current_row { IsCurrentRow drawn.now current.now }
    requires bounds { AreBounded both.now }
    ensures decides { Decides drawn.now (at_of drawn.now (Stage.Verdict current.now range both.now)) (item_view item.now) result }
{
    match item {
        Item::Verdict(word) if *word == verdict_of(range, both) => {
            Some(behind_verdict(current, range, both, *word))
        }
        _ => None,
    }
}

fn judge_past(
    drawn: &DrawnNetwork,
    current: &CurrentRow,
    range: Range,
    both: &BothBounds,
    item: &Item<'_>,
) -> Option<Stage<'static>>
    requires current_row { IsCurrentRow drawn.now current.now }
    requires bounds { AreBounded both.now }
    ensures decides { Decides drawn.now (at_of drawn.now (Stage.Past current.now range both.now)) (item_view item.now) result }
{
    let word = verdict_of(range, both);
    match item {
        Item::Times(list)
            if are_times(drawn.network(), &current.row, list)
                && breaks(&current.row, range, word, list) => {
            Some(behind_past(current, range, both, word))
        }
        _ => None,
    }
}

fn judge_slack(
    drawn: &DrawnNetwork,
    tally: ReportTally,
    number: u64,
    range: Range,
    both: &BothBounds,
    item: &Item<'_>,
) -> Option<Stage<'static>>
    requires number { number ≤ length drawn.now.rows }
    requires bounds { AreBounded both.now }
    ensures decides { Decides drawn.now (at_of drawn.now (Stage.Slack tally number range both.now)) (item_view item.now) result }
{
    match item {
        Item::Slack(value) if *value == slack_of(range, both) => {
            Some(Stage::Row { tally, number })
        }
        _ => None,
    }
}
