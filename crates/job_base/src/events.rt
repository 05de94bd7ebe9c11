//! The lines of events.

ghost use Rattle.std.specs.Prelude.{◌≡◌, ◌<◌};
ghost use Rattle.itv_base.specs.Outside.{Puts};
ghost use Rattle.slack_report.specs.Entry.{event};
ghost use Rattle.slack_report.specs.Text.{entry_text, report_text};
ghost use Rattle.drawn_networks.specs.Drawn.{name_of};
ghost use Rattle.job_base.specs.Events.{event_lines, event_of, events_from};

use drawn_networks::DrawnNetwork;
use itv_base::{EventId, PutFailed, Sink};
use line_words::LineBuffer;
use slack_report::{Item, write_item};

/// Writes how many events there are, and a line with the name of each, in order. A line that fits the buffer is one put.
pub fn put_events<K: Sink>(
    drawn: &DrawnNetwork,
    buffer: &mut LineBuffer,
    sink: &mut K,
) -> Result<(), PutFailed>
    ensures { Puts (K.state sink.old) (K.state sink.new) (report_text (event_lines drawn.now.names)) result }
{
    let count = drawn.network().events();
    write_item(&Item::Events { count }, buffer, sink)?;
    put_names(drawn, buffer, sink)
}

// Writes the lines of all events.
fn put_names<K: Sink>(
    drawn: &DrawnNetwork,
    buffer: &mut LineBuffer,
    sink: &mut K,
) -> Result<(), PutFailed>
    ensures { Puts (K.state sink.old) (K.state sink.new) (report_text (events_from 0 drawn.now.names)) result }
{
    for number in 0..drawn.network().events() {
        put_event(drawn, number, buffer, sink)?;
    }
    Ok(())
}

// Writes the line of an event.
fn put_event<K: Sink>(
    drawn: &DrawnNetwork,
    number: u32,
    buffer: &mut LineBuffer,
    sink: &mut K,
) -> Result<(), PutFailed>
    requires { number < drawn.now.net.events }
    ensures { Puts (K.state sink.old) (K.state sink.new)
        (entry_text (event number (name_of drawn.now (event_of number)))) result }
{
    let name = drawn.name(EventId(number));
    write_item(&Item::Event { number, name }, buffer, sink)
}
