//! Putting the steps from an event to an event.

ghost use Rattle.std.specs.Prelude.{◌≡◌, ◌<◌, Some};
ghost use Rattle.itv_base.specs.Outside.{Puts};
ghost use Rattle.itv_base.specs.Range.{IsEnd};
ghost use Rattle.event_graph.specs.Edges.{edge};
ghost use Rattle.slack_report.specs.declared.words.Which.TheVariants.{Max, Min};
ghost use Rattle.job_why.specs.Step.{line_words};
ghost use Rattle.job_why.specs.Text.{edge_words, step_text, steps_text};

use crate::drawn_cause::edge_by;
use crate::line::Line;
use crate::put_line::put_line;
use drawn_networks::DrawnNetwork;
use event_graph::{Edge, negated_weight};
use itv_base::{EdgeName, PutFailed, Sink};
use line_words::LineBuffer;
use origin::Notes;
use slack_report::Which;

/// Puts the steps of edges from the from-event of a row to its to-event. For a least separation the edges are the edges of the
/// reversed pair. So the last one comes first, and each step goes from the end of its edge to its start.
pub fn put_steps<N: Notes, K: Sink>(
    notes: &N,
    drawn: &DrawnNetwork,
    which: Which,
    names: &[EdgeName],
    buffer: &mut LineBuffer,
    sink: &mut K,
) -> Result<(), PutFailed>
    ensures puts { Puts (K.state sink.old) (K.state sink.new) (steps_text (N.noted notes.now) drawn.now which names.now) result }
{
    match which {
        Which::Max => put_onward(notes, drawn, names, buffer, sink),
        Which::Min => put_back(notes, drawn, names, buffer, sink),
    }
}

// Puts the steps of a greatest separation.
fn put_onward<N: Notes, K: Sink>(
    notes: &N,
    drawn: &DrawnNetwork,
    names: &[EdgeName],
    buffer: &mut LineBuffer,
    sink: &mut K,
) -> Result<(), PutFailed>
    ensures { Puts (K.state sink.old) (K.state sink.new) (steps_text (N.noted notes.now) drawn.now Max names.now) result }
{
    for name in names {
        put_step(notes, drawn, Which::Max, *name, buffer, sink)?;
    }
    Ok(())
}

// Puts the steps of a least separation.
fn put_back<N: Notes, K: Sink>(
    notes: &N,
    drawn: &DrawnNetwork,
    names: &[EdgeName],
    buffer: &mut LineBuffer,
    sink: &mut K,
) -> Result<(), PutFailed>
    ensures { Puts (K.state sink.old) (K.state sink.new) (steps_text (N.noted notes.now) drawn.now Min names.now) result }
{
    for place in (0..names.len()).rev() {
        put_step(notes, drawn, Which::Min, names[place], buffer, sink)?;
    }
    Ok(())
}

// Puts the step of an edge. If there is no such edge, nothing is put.
fn put_step<N: Notes, K: Sink>(
    notes: &N,
    drawn: &DrawnNetwork,
    which: Which,
    name: EdgeName,
    buffer: &mut LineBuffer,
    sink: &mut K,
) -> Result<(), PutFailed>
    ensures { Puts (K.state sink.old) (K.state sink.new) (step_text (N.noted notes.now) drawn.now which name) result }
{
    match drawn.network().edge(name) {
        None => Ok(()),
        Some(edge) => put_line(&step_of(notes, drawn, which, name, edge), buffer, sink),
    }
}

// The step of an edge of the network.
fn step_of<'a, N: Notes>(
    notes: &'a N,
    drawn: &'a DrawnNetwork,
    which: Which,
    name: EdgeName,
    way: Edge,
) -> Line<'a>
    requires edge { edge drawn.now.net name ≡ Some way }
    requires from { way.from.0 < drawn.now.net.events }
    requires to { way.to.0 < drawn.now.net.events }
    requires weight { IsEnd (Some way.weight) }
    ensures words { line_words result ≡ edge_words (N.noted notes.now) drawn.now which name way }
{
    let by = edge_by(notes, drawn, name);
    let from = drawn.name(way.from);
    let to = drawn.name(way.to);
    match which {
        Which::Max => Line::Step {
            from,
            to,
            weight: way.weight,
            by,
        },
        Which::Min => Line::Step {
            from: to,
            to: from,
            weight: negated_weight(way.weight),
            by,
        },
    }
}
