//! Writing the text of the job.

ghost use Rattle.std.specs.Prelude.{◌≡◌, ◌≤◌, ℕ, Bool, IfOk, List, Option, Some, None, length, option_map};
ghost use Rattle.itv_base.specs.declared.limits.TheConstants.{MAX_BUDGET};
ghost use Rattle.job_base.specs.JobWrote.{Answered, JobWrote};
ghost use Rattle.moves.specs.declared.number_seen.NumberSeen.{NumberSeen as Seen};
ghost use Rattle.job_margin.specs.Margin.{AnswersMargin};
ghost use Rattle.job_margin.specs.Step.{IsListOf};
ghost use Rattle.job_margin.specs.Text.{margin_text};

use crate::ending::{end_of, finding_word};
use crate::finding::{MarginFound, find_margins};
use crate::lines::add_numbers;
use crate::open::are_left_open;
use drawn_networks::DrawnNetwork;
use itv_base::{Listing, NoMemory, Sink};
use job_base::{Answer, Unanswered, answer_of};
use moves::{NumberSeen, numbers_of};
use origin::Notes;
use slack_report::{add_ending, add_piece, add_spaced};
use std::alloc::Global;

/// Writes how far each end of each number of a drawn network may be moved before a requirement breaks, and for a number with one value between which values no
/// requirement breaks. With a list it writes between which values none breaks where all numbers of the list move as one. Each search closes at most `budget`
/// cases. All is found before the one put.
pub fn write_margin<N: Notes, K: Sink>(
    alloc: Global,
    notes: &N,
    drawn: &DrawnNetwork,
    list: &Option<Listing<NumberSeen>>,
    budget: u64,
    sink: &mut K,
) -> Result<Answer, Unanswered>
    requires least { 1 ≤ budget }
    requires most { budget ≤ MAX_BUDGET }
    ensures works { JobWrote (AnswersMargin (N.noted notes.now) drawn.now list.now budget)
        (Answered (AnswersMargin (N.noted notes.now) drawn.now list.now budget)) (K.state sink.old) (K.state sink.new) result }
{
    let decided = decide(alloc, notes, drawn, list, budget)?;
    sink.put(&decided.text)?;
    Ok(decided.answer)
}

// The text, and the answer of the job.
#[derive(Drop)]
struct Decided {
    text: Vec<u8>,
    answer: Answer,
}

// The text and the answer, of each number by itself or of those of a list as one.
fn decide<N: Notes>(
    alloc: Global,
    notes: &N,
    drawn: &DrawnNetwork,
    list: &Option<Listing<NumberSeen>>,
    budget: u64,
) -> Result<Decided, NoMemory>
    requires least { 1 ≤ budget }
    requires most { budget ≤ MAX_BUDGET }
    ensures { IfOk result (λ d. AnswersMargin (N.noted notes.now) drawn.now list.now budget d.answer d.text.items) }
{
    match list {
        Some(list) => decide_on(alloc, notes, drawn, list.as_slice(), true, budget),
        None => {
            let seen = numbers_of(alloc, drawn)?;
            decide_on(alloc, notes, drawn, &seen, false, budget)
        }
    }
}

// The text and the answer, of some numbers.
fn decide_on<N: Notes>(
    alloc: Global,
    notes: &N,
    drawn: &DrawnNetwork,
    seen: &[NumberSeen],
    as_one: bool,
    budget: u64,
) -> Result<Decided, NoMemory>
    requires least { 1 ≤ budget }
    requires most { budget ≤ MAX_BUDGET }
    ensures { IfOk result (λ d. (list : Option (List Seen)) → IsListOf drawn.now seen.now as_one list
        → AnswersMargin (N.noted notes.now) drawn.now list budget d.answer d.text.items) }
{
    let found = find_margins(alloc, drawn, seen, as_one, budget)?;
    let text = text_of(alloc, notes, seen, &found)?;
    Ok(Decided {
        text,
        answer: answer_of(end_of(found.word, are_left_open(&found.numbers))),
    })
}

// The text of what was found.
fn text_of<N: Notes>(
    alloc: Global,
    notes: &N,
    seen: &[NumberSeen],
    found: &MarginFound,
) -> Result<Vec<u8>, NoMemory>
    requires count { length found.now.numbers.items ≤ length seen.now }
    ensures { IfOk result (λ text. text.items ≡ margin_text (N.noted notes.now) found.now.word seen.now found.now.numbers.items) }
{
    let mut text = Vec::new(alloc);
    add_piece(&mut text, b"itv margin 1\nfinding")?;
    add_spaced(&mut text, finding_word(found.word))?;
    add_piece(&mut text, b"\n")?;
    add_numbers(&mut text, notes, seen, &found.numbers)?;
    add_ending(&mut text, end_of(found.word, are_left_open(&found.numbers)))?;
    Ok(text)
}
