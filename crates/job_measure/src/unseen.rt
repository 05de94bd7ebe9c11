//! The lines of events that were not seen.

ghost use Rattle.std.specs.Prelude.{◌≡◌, ◌++◌, OnOk};
ghost use Rattle.itv_base.specs.Names.{name_view};
ghost use Rattle.job_measure.specs.Text.{unseen_count, unseen_line, unseen_text};

use crate::heading::add_name;
use crate::look::was_seen;
use drawn_networks::DrawnNetwork;
use itv_base::{EventId, EventName, NoMemory};
use measured_times::MeasuredRun;
use slack_report::{add_number, add_piece};

/// Adds a line for each event that some run does not show.
pub fn add_unseen(
    text: &mut Vec<u8>,
    drawn: &DrawnNetwork,
    runs: &[MeasuredRun],
) -> Result<(), NoMemory>
    ensures added { OnOk result (text.new.items ≡ text.old.items ++ unseen_text runs.now 0 drawn.now.names) }
{
    for number in 0..drawn.network().events() {
        let name = drawn.name(EventId(number));
        add_event(text, name, unseen_count(runs, number))?;
    }
    Ok(())
}

// How many runs do not show an event.
fn unseen_count(runs: &[MeasuredRun], event: u32) -> u64
    ensures { result ≡ unseen_count runs.now event }
{
    runs.iter()
        .filter(|run| !was_seen(run.as_slice(), EventId(event)))
        .count() as u64
}

// Adds the line of an event, if it was not seen in some run.
fn add_event(text: &mut Vec<u8>, name: EventName<'_>, count: u64) -> Result<(), NoMemory>
    ensures { OnOk result (text.new.items ≡ text.old.items ++ unseen_line (name_view name.entry) count) }
{
    if count == 0 {
        return Ok(());
    }
    add_piece(text, b"unseen")?;
    add_name(text, name)?;
    add_number(text, count)?;
    add_piece(text, b"\n")
}
