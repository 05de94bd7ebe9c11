//! The line that says whether a text is accepted.

ghost use Rattle.std.specs.Prelude.{◌≡◌, ◌≤◌, ℕ, List, true};
ghost use Rattle.job_base.specs.JobWrote.{Answered, JobWrote};
ghost use Rattle.drawn_networks.specs.Drawn.{Drawn};
ghost use Rattle.itv_base.specs.Outside.{Puts};
ghost use Rattle.job_check.specs.Check.{refused_text};
ghost use Rattle.job_settle.specs.Settle.{IsSettleText};
ghost use Rattle.job_confirm.specs.Confirm.{AnswersConfirm, IsSettledTo, confirmed_text};

use crate::check_stop::CheckStop;
use crate::confirm::confirm_text;
use drawn_networks::DrawnNetwork;
use itv_base::{PutFailed, Sink};
use job_base::{Answer, Unanswered};
use job_check::put_refused;
use slack_report::EndWord;
use std::alloc::Global;

/// Checks a text of job settle with its proofs against a drawn network. Writes that the text is accepted, with the word
/// at its end, or which line, counted from 1, is the first that is refused. All memory is taken before the put.
pub fn write_confirm<K: Sink>(
    alloc: Global,
    drawn: &DrawnNetwork,
    text: &[u8],
    sink: &mut K,
) -> Result<Answer, Unanswered>
    ensures works { JobWrote (AnswersConfirm drawn.now text.now) (Answered (AnswersConfirm drawn.now text.now))
        (K.state sink.old) (K.state sink.new) result }
{
    match confirm_text(alloc, drawn, text) {
        Ok(word) => accept(word, sink),
        Err(CheckStop::Refused { left }) => refuse(line_at(text, left), sink),
        Err(CheckStop::NoMemory) => Err(Unanswered::NoMemory),
    }
}

// Writes that a text with this word at its end is accepted.
fn accept<K: Sink>(word: EndWord, sink: &mut K) -> Result<Answer, Unanswered>
    ensures works { (drawn : Drawn) (text : List ℕ) → IsSettledTo drawn text word
        → JobWrote (AnswersConfirm drawn text) (Answered (AnswersConfirm drawn text)) (K.state sink.old) (K.state sink.new) result }
{
    match put_confirmed(word, sink) {
        Ok(()) => Ok(Answer::AllPass),
        Err(PutFailed) => Err(Unanswered::PutFailed),
    }
}

fn put_confirmed<K: Sink>(word: EndWord, sink: &mut K) -> Result<(), PutFailed>
    ensures puts { Puts (K.state sink.old) (K.state sink.new) (confirmed_text word) result }
{
    match word {
        EndWord::Pass => sink.put(b"report accepted end pass\n"),
        EndWord::Fail => sink.put(b"report accepted end fail\n"),
        EndWord::Inconsistent => sink.put(b"report accepted end inconsistent\n"),
        EndWord::Undecided => sink.put(b"report accepted end undecided\n"),
    }
}

// Writes that a line is refused.
fn refuse<K: Sink>(line: u64, sink: &mut K) -> Result<Answer, Unanswered>
    requires line { 1 ≤ line }
    ensures works { (drawn : Drawn) (text : List ℕ) → (IsSettleText drawn true text → ⊥)
        → JobWrote (AnswersConfirm drawn text) (Answered (AnswersConfirm drawn text)) (K.state sink.old) (K.state sink.new) result }
{
    match put_refused(line, sink) {
        Ok(()) => Ok(Answer::CheckRefused),
        Err(PutFailed) => Err(Unanswered::PutFailed),
    }
}

// The number, counted from 1, of the line in which the last `left` bytes of a text begin.
fn line_at(text: &[u8], left: usize) -> u64
    ensures line { 1 ≤ result }
{
    let front = text.len().saturating_sub(left);
    let ends = text[..front].iter().filter(|b| **b == b'\n').count();
    1 + ends as u64
}
