//! A scribe that writes the lines of a proof to a sink.

ghost use Rattle.std.specs.Prelude.{◌≡◌};
ghost use Rattle.std.proofs.Common.{ap, refl, ◌∙◌};
ghost use Rattle.itv_base.specs.Outside.{Puts, SinkState};
ghost use Rattle.event_graph.specs.Lines.{lent_line};
ghost use Rattle.certificate.specs.Text.{proof_line_text};
ghost use Rattle.certificate.specs.Scribing.{SinkGrew, SinkWasCut};
ghost use Rattle.certificate.specs.ScribeLaws.{sink_cut, sink_more, sink_none};

use crate::writing::write_line;
use event_graph::{Line, Scribe, ScribeFailed};
use itv_base::{EdgeName, PutFailed, Sink};
use line_words::LineBuffer;

/// Writes each line to a lent sink, with one put if the line fits a lent buffer.
#[derive(Drop)]
pub struct SinkScribe<'a, K: Sink> {
    pub buffer: &'a mut LineBuffer,
    pub sink: &'a mut K,
}

// Writes a line with one put if it fits the buffer; otherwise writes it piece by piece.
fn put_line<K: Sink>(
    line: &Line<'_>,
    buffer: &mut LineBuffer,
    sink: &mut K,
) -> Result<(), PutFailed>
    ensures { Puts (K.state sink.old) (K.state sink.new) (proof_line_text (lent_line line.now)) result }
{
    buffer.clear();
    match write_line(line, buffer) {
        Ok(()) => buffer.put_into(sink),
        Err(PutFailed) => write_line(line, sink),
    }
}

impl<'a, K: Sink> SinkScribe<'a, K> {
    // Writes a line.
    fn put(&mut self, line: &Line<'_>) -> Result<(), ScribeFailed>
        ensures sink { self.new.sink.ghost_name ≡ self.old.sink.ghost_name }
        ensures buffer { self.new.buffer.ghost_name ≡ self.old.buffer.ghost_name }
        ensures puts { Puts (K.state self.old.sink.now) (K.state self.new.sink.now)
            (proof_line_text (lent_line line.now)) result }
    {
        match put_line(line, self.buffer, self.sink) {
            Ok(()) => Ok(()),
            Err(PutFailed) => Err(ScribeFailed),
        }
    }
}

impl<'a, K: Sink> Scribe for SinkScribe<'a, K> {
    ghost faults = { λ s. (K.state s.sink.now).faults };

    ghost Grew = { λ s lines t. (t.sink.ghost_name ≡ s.sink.ghost_name) × (t.buffer.ghost_name ≡ s.buffer.ghost_name) × SinkGrew (K.state s.sink.now) lines (K.state t.sink.now) };

    ghost WasCut = { λ s lines t. (t.sink.ghost_name ≡ s.sink.ghost_name) × (t.buffer.ghost_name ≡ s.buffer.ghost_name) × SinkWasCut (K.state s.sink.now) lines (K.state t.sink.now) };

    fn split(&mut self, constraint: u32) -> Result<(), ScribeFailed> {
        self.put(&Line::Split(constraint))
    }

    fn cut_path(&mut self, edges: &[EdgeName]) -> Result<(), ScribeFailed> {
        self.put(&Line::Path(edges))
    }

    fn cut_loop(&mut self, edges: &[EdgeName]) -> Result<(), ScribeFailed> {
        self.put(&Line::Loop(edges))
    }

    ghost grew_none = { λ s. (refl, refl, sink_none (K.state s.sink.now)) };

    ghost grew_more = { λ s t u xs ys p q. (q.0 ∙ p.0, q.1 ∙ p.1, sink_more (K.state s.sink.now) (K.state t.sink.now) (K.state u.sink.now) xs ys p.2 q.2) };

    ghost cut_after = { λ s t u xs ys p q. (q.0 ∙ p.0, q.1 ∙ p.1, sink_cut (K.state s.sink.now) (K.state t.sink.now) (K.state u.sink.now) xs ys p.2 q.2) };

    ghost grew_faults = { λ s t xs p. ap (λ (state : SinkState). state.faults) p.2 };
}
