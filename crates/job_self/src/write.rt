//! Writing a summary.

ghost use Rattle.std.specs.Prelude.{◌≡◌, ◌≤◌, ◌∷◌, [], IfOk};
ghost use Rattle.std.specs.List.{flat_map};
ghost use Rattle.itv_base.specs.Outside.{Puts};
ghost use Rattle.itv_base.specs.declared.limits.TheConstants.{MAX_BUDGET};
ghost use Rattle.job_base.specs.JobWrote.{Answered, JobWrote};
ghost use Rattle.slack_report.specs.Text.{ending_word};
ghost use Rattle.job_self.specs.Summary.{AnswersSummary, ComesTo, number_lines, summary_text, words_text};
ghost use Rattle.job_self.specs.Step.{count_text};

use crate::nowhere::Nowhere;
use drawn_networks::DrawnNetwork;
use itoa::Buffer;
use itv_base::{NoMemory, PutFailed, Sink, number_text};
use job_base::{Answer, Unanswered, answer_of};
use job_bounds::{Summary, write_bounds};
use line_words::{LineBuffer, put_words};
use slack_report::EndWord;
use std::alloc::Global;

/// Room for the bytes of a line: the longest line has a word of eleven letters and a number of ten digits.
const ROOM: u32 = 32;

/// Writes the summary of the report of a drawn network. The network is drawn by the generated design of a size. Each search of the report closes
/// at most `budget` cases. All memory is taken before the first put, and each line is written by one put.
pub fn write_summary<K: Sink>(
    alloc: Global,
    drawn: &DrawnNetwork,
    size: u32,
    budget: u64,
    sink: &mut K,
) -> Result<Answer, Unanswered>
    requires least { 1 ≤ budget }
    requires most { budget ≤ MAX_BUDGET }
    ensures works { JobWrote (AnswersSummary drawn.now size budget) (Answered (AnswersSummary drawn.now size budget))
        (K.state sink.old) (K.state sink.new) result }
{
    let mut buffer = LineBuffer::new(alloc, ROOM)?;
    let summary = summed(alloc, drawn, budget)?;
    put_summary(drawn, size, &summary, &mut buffer, sink)?;
    Ok(answer_of(summary.end))
}

// The summary of the report of a drawn network. The report itself is written nowhere.
fn summed(alloc: Global, drawn: &DrawnNetwork, budget: u64) -> Result<Summary, NoMemory>
    requires least { 1 ≤ budget }
    requires most { budget ≤ MAX_BUDGET }
    ensures { IfOk result (ComesTo drawn.now budget) }
{
    match write_bounds(alloc, drawn, budget, false, &mut Nowhere) {
        Ok(summary) => Ok(summary),
        Err(Unanswered::NoMemory) => Err(NoMemory),
        Err(Unanswered::PutFailed) => unreachable!(),
    }
}

// The lines of a summary.
fn put_summary<K: Sink>(
    drawn: &DrawnNetwork,
    size: u32,
    summary: &Summary,
    buffer: &mut LineBuffer,
    sink: &mut K,
) -> Result<(), PutFailed>
    ensures { Puts (K.state sink.old) (K.state sink.new) (summary_text drawn.now size summary.now) result }
{
    put_numbers(drawn, size, summary, buffer, sink)?;
    put_line(b"end", end_word(summary.end), buffer, sink)
}

// The lines of numbers of a summary.
fn put_numbers<K: Sink>(
    drawn: &DrawnNetwork,
    size: u32,
    summary: &Summary,
    buffer: &mut LineBuffer,
    sink: &mut K,
) -> Result<(), PutFailed>
    ensures { Puts (K.state sink.old) (K.state sink.new) (flat_map words_text (number_lines drawn.now size summary.now)) result }
{
    put_counts(
        &[
            Count {
                word: b"self",
                count: u64::from(size),
            },
            Count {
                word: b"events",
                count: u64::from(drawn.network().events()),
            },
            Count {
                word: b"constraints",
                count: u64::from(drawn.network().len()),
            },
            Count {
                word: b"rows",
                count: drawn.rows().len(),
            },
            Count {
                word: b"pass",
                count: u64::from(summary.passes),
            },
            Count {
                word: b"fail",
                count: u64::from(summary.fails),
            },
            Count {
                word: b"undecided",
                count: u64::from(summary.undecided),
            },
        ],
        buffer,
        sink,
    )
}

// The word at the end of a report, as bytes.
fn end_word(word: EndWord) -> &'static [u8]
    ensures { result.now ≡ ending_word word }
{
    match word {
        EndWord::Pass => b"pass",
        EndWord::Fail => b"fail",
        EndWord::Inconsistent => b"inconsistent",
        EndWord::Undecided => b"undecided",
    }
}

// ---- lines

// A number, and what it counts.
#[derive(Clone, Copy)]
struct Count<'a> {
    word: &'a [u8],
    count: u64,
}

// The line of each number.
fn put_counts<K: Sink>(
    counts: &[Count<'_>],
    buffer: &mut LineBuffer,
    sink: &mut K,
) -> Result<(), PutFailed>
    ensures { Puts (K.state sink.old) (K.state sink.new) (flat_map count_text counts.now) result }
{
    for count in counts {
        put_count(count, buffer, sink)?;
    }
    Ok(())
}

fn put_count<K: Sink>(
    count: &Count<'_>,
    buffer: &mut LineBuffer,
    sink: &mut K,
) -> Result<(), PutFailed>
    ensures { Puts (K.state sink.old) (K.state sink.new) (count_text count.now) result }
{
    let mut digits = Buffer::new();
    let number = number_text(count.count, &mut digits);
    put_line(count.word, number.as_bytes(), buffer, sink)
}

// A line of two words. A line that fits the buffer is put at once.
fn put_line<K: Sink>(
    word: &[u8],
    other: &[u8],
    buffer: &mut LineBuffer,
    sink: &mut K,
) -> Result<(), PutFailed>
    ensures { Puts (K.state sink.old) (K.state sink.new) (words_text (word.now ∷ other.now ∷ [])) result }
{
    buffer.clear();
    match put_words(word, &[other], buffer) {
        Ok(()) => buffer.put_into(sink),
        Err(PutFailed) => put_words(word, &[other], sink),
    }
}
