//! The line that says what becomes of a report.

ghost use Rattle.std.specs.Prelude.{ℕ, List};
ghost use Rattle.itv_base.specs.Outside.{Puts};
ghost use Rattle.job_base.specs.JobWrote.{Answered, JobWrote};
ghost use Rattle.drawn_networks.specs.Drawn.{Drawn};
ghost use Rattle.job_check.specs.Check.{AnswersCheck, IsCheckOf, refused_text};
ghost use Rattle.job_check.specs.Step.Texts.{checked_text};

use crate::check::{Checked, check_report};
use drawn_networks::DrawnNetwork;
use itoa::Buffer;
use itv_base::{NoMemory, PutFailed, Sink, number_text, put_all};
use job_base::{Answer, Unanswered};
use std::alloc::Global;

/// Checks a text as a report of a drawn network, and writes a line that says what becomes of it. All memory is taken
/// before the first put.
pub fn write_check<K: Sink>(
    alloc: Global,
    drawn: &DrawnNetwork,
    bytes: &[u8],
    sink: &mut K,
) -> Result<Answer, Unanswered>
    ensures works { JobWrote (AnswersCheck drawn.now bytes.now) (Answered (AnswersCheck drawn.now bytes.now))
        (K.state sink.old) (K.state sink.new) result }
{
    match check_report(alloc, drawn, bytes) {
        Ok(checked) => put_answer(checked, sink),
        Err(NoMemory) => Err(Unanswered::NoMemory),
    }
}

fn put_answer<K: Sink>(checked: Checked, sink: &mut K) -> Result<Answer, Unanswered>
    ensures works { (drawn : Drawn) (bytes : List ℕ) → IsCheckOf drawn bytes checked
        → JobWrote (AnswersCheck drawn bytes) (Answered (AnswersCheck drawn bytes)) (K.state sink.old) (K.state sink.new) result }
{
    match put_checked(checked, sink) {
        Ok(()) => Ok(answer_of(checked)),
        Err(PutFailed) => Err(Unanswered::PutFailed),
    }
}

// What the job answers.
fn answer_of(checked: Checked) -> Answer
    ensures answer { (drawn : Drawn) (bytes : List ℕ) → IsCheckOf drawn bytes checked → AnswersCheck drawn bytes result (checked_text checked) }
{
    match checked {
        Checked::Accepted => Answer::AllPass,
        Checked::Refused { .. } => Answer::CheckRefused,
    }
}

// Writes the line that says what becomes of a report.
fn put_checked<K: Sink>(checked: Checked, sink: &mut K) -> Result<(), PutFailed>
    ensures puts { Puts (K.state sink.old) (K.state sink.new) (checked_text checked) result }
{
    match checked {
        Checked::Accepted => sink.put(b"report accepted\n"),
        Checked::Refused { line } => put_refused(line, sink),
    }
}

/// Writes the line with the number of the first wrong line, counted from 1.
pub fn put_refused<K: Sink>(line: u64, sink: &mut K) -> Result<(), PutFailed>
    ensures puts { Puts (K.state sink.old) (K.state sink.new) (refused_text line) result }
{
    let mut digits = Buffer::new();
    let number = number_text(line, &mut digits).as_bytes();
    put_all(sink, &[b"report refused at line ", number, b"\n"])
}
