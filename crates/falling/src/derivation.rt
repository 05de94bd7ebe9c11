//! Derivations: from a source all values fall, line by line.

ghost use Rattle.std.specs.Prelude.{◌≡◌, ◌<◌, ◌≤◌, ◌↔◌, ℤ, pos, List, [], ◌∷◌, set, replicate, IsTrue, OnOk, OnErr, IfOk, length};
ghost use Rattle.itv_base.specs.Outside.{FaultCounted};
ghost use Rattle.falling.specs.declared.line.FallLine.{FallLine};
ghost use Rattle.falling.specs.Agenda.{IsAgendaFor};
ghost use Rattle.falling.specs.DerivationEnds.{AreLimits};
ghost use Rattle.falling.specs.Step.DerivationEnds.{EndsDerivation, IsDerivationEnd};
ghost use Rattle.falling.specs.Derivation.{IsDerivation, fallen};

use crate::agenda::Agenda;
use crate::fall_scribe::{FallScribe, FallScribeFailed};
use crate::limits::Limits;
use crate::line::{FallLine, Reason};
use event_graph::Network;
use itv_base::EventId;

/// How a derivation stopped: no line is allowed any more, the derivation has ended, or its turns were spent.
#[derive(Clone, Copy)]
pub enum DerivationEnd {
    Settled,
    Ended,
    Spent,
}

// How a derivation stopped, and the number of its lines.
#[derive(Clone, Copy)]
pub struct Descent {
    pub end: DerivationEnd,
    pub turns: u64,
}

/// Lets the values fall from a source, by at most so many lines.
pub fn derive<N: FallScribe>(
    net: &Network,
    from: EventId,
    limits: Limits,
    turns: u64,
    agenda: &mut Agenda,
    values: &mut [i64],
    scribe: &mut N,
) -> Result<Descent, FallScribeFailed>
    requires from { from.0 < net.now.events }
    requires count { length values.old ≡ net.now.events }
    requires limits { AreLimits net.now limits }
    requires agenda { IsAgendaFor net.now agenda.old }
    ensures lines { IfOk result (λ descent. (lines : List FallLine) × N.Grew scribe.old lines scribe.new
        × (length lines ≡ descent.turns)
        × IsDerivationEnd net.now from turns lines values.new descent.end) }
    ensures most { IfOk result (λ descent. descent.turns ≤ turns) }
    ensures cut { OnErr result ((lines : List FallLine) × N.WasCut scribe.old lines scribe.new
        × (length lines ≤ turns) × (after : List ℤ) × IsDerivation net.now from lines after) }
    ensures rose { OnErr result (FaultCounted (N.faults scribe.old) (N.faults scribe.new)) }
    ensures count { length values.new ≡ length values.old }
    ensures agenda { IsAgendaFor net.now agenda.new }
{
    prove!(net.events() as usize == values.len());
    start(values, from, limits);
    agenda.begin();
    let mut taken: u64 = 0;
    'turns: while let Some(line) = agenda.next_line(net, values) {
        if taken == turns {
            return Ok(Descent {
                end: DerivationEnd::Spent,
                turns: taken,
            });
        }
        if let Err(failed) = note(line, scribe) {
            return Err(failed);
        }
        lower(values, line);
        taken += 1;
        if ends(line, from, limits) {
            return Ok(Descent {
                end: DerivationEnd::Ended,
                turns: taken,
            });
        }
        agenda.wake(line.event);
    }
    Ok(Descent {
        end: DerivationEnd::Settled,
        turns: taken,
    })
}

// The source at 0, and every other event at the cap.
pub fn start(values: &mut [i64], from: EventId, limits: Limits)
    requires from { from.0 < length values.old }
    ensures { values.new ≡ set (replicate (length values.old) limits.cap) from.0 (pos 0) }
{
    values.fill(limits.cap);
    values[from.0 as usize] = 0;
}

// Notes a line.
fn note<N: FallScribe>(line: FallLine, scribe: &mut N) -> Result<(), FallScribeFailed>
    ensures grew { OnOk result (N.Grew scribe.old (line ∷ []) scribe.new) }
    ensures cut { OnErr result (N.WasCut scribe.old (line ∷ []) scribe.new) }
    ensures rose { OnErr result (FaultCounted (N.faults scribe.old) (N.faults scribe.new)) }
{
    match line.reason {
        Reason::ByEdge(edge) => scribe.fall(line.event, line.value, edge),
        Reason::ByLatest(constraint) => scribe.late(line.event, line.value, constraint),
    }
}

// Whether a line ends a derivation that has not ended before.
pub fn ends(line: FallLine, from: EventId, limits: Limits) -> bool
    ensures { IsTrue result ↔ EndsDerivation line from limits.lowest }
{
    (line.event == from && line.value < 0) || line.value < limits.lowest
}

// The values after a line.
pub fn lower(values: &mut [i64], line: FallLine)
    requires { line.event.0 < length values.old }
    ensures { values.new ≡ fallen values.old line }
{
    values[line.event.0 as usize] = line.value;
}
