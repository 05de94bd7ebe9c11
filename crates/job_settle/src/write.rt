//! Writing the text of the job.

ghost use Rattle.std.specs.Prelude.{◌≡◌, ℕ, List, IfOk, OnErr};
ghost use Rattle.itv_base.specs.Outside.{CutShort, Puts, grown};
ghost use Rattle.job_base.specs.JobWrote.{Answered, JobWrote};
ghost use Rattle.job_settle.specs.Answers.{AreFound, HaveLinesWithin, IsFinding};
ghost use Rattle.job_settle.specs.Settle.{AnswersSettle};
ghost use Rattle.job_settle.specs.Text.{ending_of, front_text, settle_text};

use crate::ending::ending_of;
use crate::finding::{Finding, find};
use crate::put_bounds::put_finding;
use crate::put_rows::put_behind;
use crate::row::RowFound;
use crate::rows::find_rows;
use crate::wanted::Wanted;
use drawn_networks::DrawnNetwork;
use itv_base::{NoMemory, PutFailed, Sink};
use job_base::{Answer, Unanswered, answer_of, put_events};
use line_words::LineBuffer;
use settle::{RunTurns, Settler};
use slack_report::{EndWord, Item, LINE_ROOM, write_item};
use std::alloc::Global;

/// Writes the exact bounds of a drawn network, whatever its choices: the events, whether some times satisfy the network, and both
/// bounds of each of its rows, with verdict and slack of each requirement. Each search takes at most this many turns, and all together take at most four
/// times as many. With `cert` the proof of each search is printed. All is found before the first put.
pub fn write_settle<K: Sink>(
    alloc: Global,
    drawn: &DrawnNetwork,
    turns: u64,
    cert: bool,
    sink: &mut K,
) -> Result<Answer, Unanswered>
    ensures works { JobWrote (AnswersSettle drawn.now turns cert) (Answered (AnswersSettle drawn.now turns cert)) (K.state sink.old) (K.state sink.new) result }
{
    let found = find_network(alloc, drawn, Wanted { turns, cert })?;
    let mut buffer = LineBuffer::new(alloc, LINE_ROOM)?;
    Ok(put_found(drawn, cert, &found, &mut buffer, sink)?)
}

// What is found of a network and of each of its rows.
#[derive(Drop)]
struct NetworkFound {
    finding: Finding,
    rows: Vec<RowFound>,
}

// Finds all that is asked of a network.
fn find_network(
    alloc: Global,
    drawn: &DrawnNetwork,
    wanted: Wanted,
) -> Result<NetworkFound, NoMemory>
    ensures finding { IfOk result (λ found. IsFinding wanted.cert drawn.now.net found.finding) }
    ensures rows { IfOk result (λ found. AreFound wanted.cert drawn.now.net drawn.now.rows found.finding found.rows.items) }
    ensures within { IfOk result (λ found. HaveLinesWithin wanted.turns found.finding found.rows.items) }
{
    let settler = Settler::new(alloc, drawn.network())?;
    let mut left = RunTurns::of(wanted.turns);
    let finding = find(alloc, drawn.network(), &settler, wanted, &mut left)?;
    let rows = find_rows(alloc, drawn, &finding, &settler, wanted, &mut left)?;
    Ok(NetworkFound { finding, rows })
}

// Puts the whole text. The word at its end gives the answer.
fn put_found<K: Sink>(
    drawn: &DrawnNetwork,
    cert: bool,
    found: &NetworkFound,
    buffer: &mut LineBuffer,
    sink: &mut K,
) -> Result<Answer, PutFailed>
    requires finding { IsFinding cert drawn.now.net found.now.finding }
    requires rows { AreFound cert drawn.now.net drawn.now.rows found.now.finding found.now.rows.items }
    ensures answers { (turns : ℕ) → HaveLinesWithin turns found.now.finding found.now.rows.items → IfOk result (λ answer. (text : List ℕ)
        × AnswersSettle drawn.now turns cert answer text × (K.state sink.new ≡ grown (K.state sink.old) text)) }
    ensures begins { (turns : ℕ) → HaveLinesWithin turns found.now.finding found.now.rows.items → OnErr result ((text : List ℕ)
        × Answered (AnswersSettle drawn.now turns cert) text × CutShort (K.state sink.old) (K.state sink.new) text) }
{
    let word = ending_of(drawn, &found.finding, &found.rows);
    put_text(drawn, cert, found, word, buffer, sink)?;
    Ok(answer_of(word))
}

// Puts the whole text, with the word at its end.
fn put_text<K: Sink>(
    drawn: &DrawnNetwork,
    cert: bool,
    found: &NetworkFound,
    word: EndWord,
    buffer: &mut LineBuffer,
    sink: &mut K,
) -> Result<(), PutFailed>
    requires found { AreFound cert drawn.now.net drawn.now.rows found.now.finding found.now.rows.items }
    requires word { word ≡ ending_of drawn.now.rows found.now.finding found.now.rows.items }
    ensures puts { Puts (K.state sink.old) (K.state sink.new) (settle_text drawn.now cert found.now.finding found.now.rows.items) result }
{
    put_front(drawn, buffer, sink)?;
    put_finding(cert, &found.finding, buffer, sink)?;
    put_behind(drawn, cert, &found.finding, &found.rows, buffer, sink)?;
    write_item(&Item::End(word), buffer, sink)
}

/// Puts the heading and the events.
pub fn put_front<K: Sink>(
    drawn: &DrawnNetwork,
    buffer: &mut LineBuffer,
    sink: &mut K,
) -> Result<(), PutFailed>
    ensures puts { Puts (K.state sink.old) (K.state sink.new) (front_text drawn.now) result }
{
    sink.put(b"itv settle 2\n")?;
    put_events(drawn, buffer, sink)
}
