//! A scribe that writes the lines of a derivation to a sink.

ghost use Rattle.std.specs.Prelude.{◌≡◌};
ghost use Rattle.std.proofs.Common.{ap, refl, ◌∙◌};
ghost use Rattle.itv_base.specs.Outside.{Puts, SinkState};
ghost use Rattle.job_fall.specs.FallText.{fall_line_text};
ghost use Rattle.job_fall.specs.Step.{SinkGrew, SinkWasCut};
ghost use Rattle.job_fall.specs.NotesLaws.{sink_cut, sink_more, sink_none};

use crate::fall_line::write_line;
use falling::{FallLine, FallScribe, FallScribeFailed, Reason};
use itv_base::{EdgeName, EventId, PutFailed, Sink};

/// Writes each line to a sink that is lent.
#[derive(Drop)]
pub struct SinkFallScribe<'a, K: Sink> {
    pub sink: &'a mut K,
}

impl<'a, K: Sink> SinkFallScribe<'a, K> {
    // Writes a line.
    fn put(&mut self, line: FallLine) -> Result<(), FallScribeFailed>
        ensures sink { self.new.sink.ghost_name ≡ self.old.sink.ghost_name }
        ensures puts { Puts (K.state self.old.sink.now) (K.state self.new.sink.now) (fall_line_text line) result }
    {
        match write_line(line, self.sink) {
            Ok(()) => Ok(()),
            Err(PutFailed) => Err(FallScribeFailed),
        }
    }
}

impl<'a, K: Sink> FallScribe for SinkFallScribe<'a, K> {
    ghost faults = { λ s. (K.state s.sink.now).faults };

    ghost Grew = { λ s lines t. (t.sink.ghost_name ≡ s.sink.ghost_name) × SinkGrew (K.state s.sink.now) lines (K.state t.sink.now) };

    ghost WasCut = { λ s lines t. (t.sink.ghost_name ≡ s.sink.ghost_name) × SinkWasCut (K.state s.sink.now) lines (K.state t.sink.now) };

    fn fall(&mut self, event: EventId, value: i64, edge: EdgeName) -> Result<(), FallScribeFailed> {
        self.put(FallLine {
            event,
            value,
            reason: Reason::ByEdge(edge),
        })
    }

    fn late(
        &mut self,
        event: EventId,
        value: i64,
        constraint: u32,
    ) -> Result<(), FallScribeFailed> {
        self.put(FallLine {
            event,
            value,
            reason: Reason::ByLatest(constraint),
        })
    }

    ghost grew_none = { λ s. (refl, sink_none (K.state s.sink.now)) };

    ghost grew_more = { λ s t u xs ys p q. (q.0 ∙ p.0, sink_more (K.state s.sink.now) (K.state t.sink.now) (K.state u.sink.now) xs ys p.1 q.1) };

    ghost cut_after = { λ s t u xs ys p q. (q.0 ∙ p.0, sink_cut (K.state s.sink.now) (K.state t.sink.now) (K.state u.sink.now) xs ys p.1 q.1) };

    ghost grew_faults = { λ s t xs p. ap (λ (state : SinkState). state.faults) p.1 };
}
