//! Putting a bound and the lines after it.

ghost use Rattle.std.specs.Prelude.{◌≡◌, ◌<◌, if◌then◌else◌, [], ◌∷◌, codes, length};
ghost use Rattle.itv_base.specs.Outside.{Puts};
ghost use Rattle.line_words.specs.Lines.{ended, line_of};
ghost use Rattle.job_why.specs.Step.{HasFlags};
ghost use Rattle.job_why.specs.Text.{behind_text, bound_text, name_in, raise_text};

use crate::line::Line;
use crate::put_line::put_line;
use crate::steps::put_steps;
use drawn_networks::DrawnNetwork;
use explanations::BoundFound;
use itv_base::{EventId, PutFailed, Sink};
use line_words::LineBuffer;
use origin::Notes;
use requirements::Separation;
use slack_report::{Item, Which, write_item};

/// Puts a bound and the lines after it. They are the steps that sum to it if it is a number, and the events that can be raised by
/// any number if it is unbounded.
pub fn put_bound<N: Notes, K: Sink>(
    notes: &N,
    drawn: &DrawnNetwork,
    which: Which,
    found: &BoundFound,
    buffer: &mut LineBuffer,
    sink: &mut K,
) -> Result<(), PutFailed>
    requires flags { HasFlags drawn.now.net.events found.now }
    ensures puts { Puts (K.state sink.old) (K.state sink.new) (bound_text (N.noted notes.now) drawn.now which found.now) result }
{
    let bound = found.bound();
    write_item(&Item::Bound { which, bound }, buffer, sink)?;
    put_behind(notes, drawn, which, found, buffer, sink)
}

// Puts the lines after a bound.
fn put_behind<N: Notes, K: Sink>(
    notes: &N,
    drawn: &DrawnNetwork,
    which: Which,
    found: &BoundFound,
    buffer: &mut LineBuffer,
    sink: &mut K,
) -> Result<(), PutFailed>
    requires flags { HasFlags drawn.now.net.events found.now }
    ensures { Puts (K.state sink.old) (K.state sink.new) (behind_text (N.noted notes.now) drawn.now which found.now) result }
{
    match found {
        Separation::Closed { shown, .. } => { put_steps(notes, drawn, which, shown, buffer, sink) }
        Separation::Unbounded { shown } => put_raised(drawn, shown, buffer, sink),
        Separation::Open { .. } => Ok(()),
    }
}

// Puts the events of a set. The set has a flag for each event.
fn put_raised<K: Sink>(
    drawn: &DrawnNetwork,
    set: &[bool],
    buffer: &mut LineBuffer,
    sink: &mut K,
) -> Result<(), PutFailed>
    requires count { length set.now ≡ drawn.now.net.events }
    ensures { Puts (K.state sink.old) (K.state sink.new) (raise_text drawn.now 0 set.now) result }
{
    for number in 0..drawn.network().events() {
        put_flag(drawn, number, set[number as usize], buffer, sink)?;
    }
    Ok(())
}

// Puts an event, if it is in a set.
fn put_flag<K: Sink>(
    drawn: &DrawnNetwork,
    number: u32,
    is_in: bool,
    buffer: &mut LineBuffer,
    sink: &mut K,
) -> Result<(), PutFailed>
    requires event { number < drawn.now.net.events }
    ensures { Puts (K.state sink.old) (K.state sink.new)
        (if is_in then ended (line_of (codes "raise" ∷ name_in drawn.now (record { 0 = number }) ∷ [])) else []) result }
{
    if !is_in {
        return Ok(());
    }
    put_line(&Line::Raise(drawn.name(EventId(number))), buffer, sink)
}
