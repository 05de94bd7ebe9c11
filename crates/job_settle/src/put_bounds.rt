//! Putting the finding, and the bounds of a row.

ghost use Rattle.itv_base.specs.Outside.{Puts};
ghost use Rattle.std.specs.Prelude.{◌++◌, ◌∷◌, [], codes};
ghost use Rattle.line_words.specs.Lines.{ended, line_of};
ghost use Rattle.requirements.specs.declared.bound.Bound.TheVariants.{Unbounded};
ghost use Rattle.slack_report.specs.Entry.{bound as entry_bound, raise, times as entry_times};
ghost use Rattle.slack_report.specs.Text.{entry_text, which_word};
ghost use Rattle.job_settle.specs.Text.{bound_text, finding_text};

use crate::bound::{SettledBound, bound_of};
use crate::finding::Finding;
use crate::proof::put_proof;
use itv_base::{PutFailed, Sink};
use line_words::LineBuffer;
use requirements::{Bound, Consistency};
use slack_report::{Item, Which, write_item};

/// Puts the finding, with times that satisfy the network or, if proofs are wanted, with the proof that none do.
pub fn put_finding<K: Sink>(
    cert: bool,
    finding: &Finding,
    buffer: &mut LineBuffer,
    sink: &mut K,
) -> Result<(), PutFailed>
    ensures puts { Puts (K.state sink.old) (K.state sink.new) (finding_text cert finding.now) result }
{
    match finding {
        Finding::Consistent(times) => {
            write_item(&Item::Finding(Consistency::Consistent), buffer, sink)?;
            write_item(&Item::Times(times), buffer, sink)
        }
        Finding::Inconsistent(proof) => {
            put_proof(cert, proof, buffer, sink)?;
            write_item(&Item::Finding(Consistency::Inconsistent), buffer, sink)
        }
        Finding::Open => sink.put(b"finding spent\n"),
    }
}

/// Puts a bound, with its proof if proofs are wanted, and with times.
pub fn put_bound<K: Sink>(
    cert: bool,
    which: Which,
    found: &SettledBound,
    buffer: &mut LineBuffer,
    sink: &mut K,
) -> Result<(), PutFailed>
    ensures puts { Puts (K.state sink.old) (K.state sink.new) (bound_text cert which found.now) result }
{
    match found {
        SettledBound::Closed(_, times, proof) => {
            put_proof(cert, proof, buffer, sink)?;
            put_number(which, bound_of(found), times, buffer, sink)
        }
        SettledBound::Unbounded(times, ray) => put_unbounded(which, times, ray, buffer, sink),
        SettledBound::Open => put_spent(which, sink),
    }
}

// Puts a bound, and times that attain it.
fn put_number<K: Sink>(
    which: Which,
    bound: Bound,
    times: &[i64],
    buffer: &mut LineBuffer,
    sink: &mut K,
) -> Result<(), PutFailed>
    ensures puts { Puts (K.state sink.old) (K.state sink.new) (entry_text (entry_bound which bound) ++ entry_text (entry_times times.now)) result }
{
    write_item(&Item::Bound { which, bound }, buffer, sink)?;
    write_item(&Item::Times(times), buffer, sink)
}

// Puts that there is no bound, times, and the events that can be raised from them.
fn put_unbounded<K: Sink>(
    which: Which,
    times: &[i64],
    ray: &[bool],
    buffer: &mut LineBuffer,
    sink: &mut K,
) -> Result<(), PutFailed>
    ensures puts { Puts (K.state sink.old) (K.state sink.new)
        (entry_text (entry_bound which Unbounded) ++ (entry_text (entry_times times.now) ++ entry_text (raise ray.now))) result }
{
    let bound = Bound::Unbounded;
    write_item(&Item::Bound { which, bound }, buffer, sink)?;
    write_item(&Item::Times(times), buffer, sink)?;
    write_item(&Item::Raise(ray), buffer, sink)
}

// Puts that the turns were spent.
fn put_spent<K: Sink>(which: Which, sink: &mut K) -> Result<(), PutFailed>
    ensures puts { Puts (K.state sink.old) (K.state sink.new) (ended (line_of (which_word which ∷ codes "spent" ∷ []))) result }
{
    match which {
        Which::Max => sink.put(b"max spent\n"),
        Which::Min => sink.put(b"min spent\n"),
    }
}
