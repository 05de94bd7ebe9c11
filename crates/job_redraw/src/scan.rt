//! The first row of a report that fails.

ghost use Rattle.std.specs.Prelude.{◌≡◌, option_map};
ghost use Rattle.slack_report.specs.Items.{item_view};
ghost use Rattle.job_redraw.specs.Failed.{first_failed, failed_verdict, with_line, with_times};
ghost use Rattle.job_redraw.specs.Step.{fail_view, seen_view};

use requirements::Verdict;
use slack_report::{Item, Items};

/// A row, given by its number, the side on which it fails, and times in picoseconds that break its requirement there.
#[derive(Clone, Copy)]
pub struct Fail<'a> {
    pub row: u32,
    pub side: Verdict,
    pub times: &'a [i64],
}

/// What some lines of a report say: the row that they are at, the side on which it fails while its times are yet to come, and the
/// first failed row.
#[derive(Clone, Copy)]
pub struct Seen<'a> {
    pub row: u32,
    pub side: Option<Verdict>,
    pub found: Option<Fail<'a>>,
}

/// The first row of a report whose verdict is a fail, with the times after the verdict.
pub fn first_failed(items: &Items) -> Option<Fail<'_>>
    ensures found { option_map fail_view result ≡ first_failed items.now }
{
    let mut seen = Seen {
        row: 0,
        side: None,
        found: None,
    };
    for k in 0..items.len() {
        let (item, _) = items.get(k);
        seen = after(seen, &item);
    }
    seen.found
}

// What the lines say with one more.
fn after<'a>(seen: Seen<'a>, item: &Item<'a>) -> Seen<'a>
    ensures { seen_view result ≡ with_line (seen_view seen.entry) (item_view item.now) }
{
    match item {
        Item::Row { number, .. } => Seen {
            row: *number,
            side: None,
            found: seen.found,
        },
        Item::Verdict(word) => Seen {
            row: seen.row,
            side: failed_verdict(*word),
            found: seen.found,
        },
        Item::Times(times) => with_times(seen, times),
        Item::Slack(_) => Seen {
            row: seen.row,
            side: None,
            found: seen.found,
        },
        Item::Heading
        | Item::Budget { .. }
        | Item::Events { .. }
        | Item::Event { .. }
        | Item::Proof(_)
        | Item::Finding(_)
        | Item::Rows { .. }
        | Item::Bound { .. }
        | Item::Raise(_)
        | Item::End(_) => seen,
    }
}

// The side of a verdict, if it is a fail.
fn failed_verdict(word: Verdict) -> Option<Verdict>
    ensures { result ≡ failed_verdict word }
{
    match word {
        Verdict::FailHigh | Verdict::FailLow => Some(word),
        Verdict::Pass | Verdict::Undecided => None,
    }
}

// Times after a fail are the times of its row. It is the first failed row, unless one was found before.
fn with_times<'a>(seen: Seen<'a>, times: &'a [i64]) -> Seen<'a>
    ensures { seen_view result ≡ with_times (seen_view seen.entry) times.now }
{
    match (seen.found, seen.side) {
        (None, Some(side)) => Seen {
            row: seen.row,
            side: seen.side,
            found: Some(Fail {
                row: seen.row,
                side,
                times,
            }),
        },
        (Some(_), _) | (None, None) => seen,
    }
}
