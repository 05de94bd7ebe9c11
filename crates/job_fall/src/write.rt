//! Writing the text of the job.

ghost use Rattle.std.specs.Prelude.{◌≡◌, ℕ, Bool, List, IfOk, OnErr};
ghost use Rattle.falling.specs.View.{IsViewOf};
ghost use Rattle.itv_base.specs.Outside.{CutShort, Puts, grown};
ghost use Rattle.job_base.specs.JobWrote.{JobWrote};
ghost use Rattle.job_fall.specs.Fall.{AnswersFall, BeginsFall, at_end, at_finding, at_last};
ghost use Rattle.job_fall.specs.Step.{WritesPieces, HasFound, IsSet, asked, behind_found, end_word};
ghost use Rattle.job_fall.specs.Text.{front_text, view_text};

use crate::desk::Desk;
use crate::finding::print_finding;
use crate::rows::print_rows;
use crate::wanted::Wanted;
use drawn_networks::DrawnNetwork;
use falling::View;
use itv_base::{PutFailed, Sink};
use job_base::{Answer, Unanswered, answer_of, put_events};
use line_words::LineBuffer;
use requirements::Consistency;
use slack_report::{EndWord, Item, write_item};
use std::alloc::Global;

/// Writes the bounds of a drawn network that is solved in a view: the view, the events, whether some times satisfy the
/// network, and the bounds of each row. Each derivation has at most as many lines as there are turns. With `cert` the
/// lines are printed. All memory is taken before the first put.
pub fn write_fall<K: Sink>(
    alloc: Global,
    drawn: &DrawnNetwork,
    view: View,
    turns: u64,
    cert: bool,
    sink: &mut K,
) -> Result<Answer, Unanswered>
    requires view { IsViewOf drawn.now.net view }
    ensures works { JobWrote (AnswersFall drawn.now turns cert) (BeginsFall drawn.now turns cert)
        (K.state sink.old) (K.state sink.new) result }
{
    let mut desk = Desk::new(alloc, drawn.network(), view)?;
    let wanted = Wanted { turns, cert };
    Ok(print_text(drawn, view, wanted, &mut desk, sink)?)
}

// Searches and writes the whole text.
fn print_text<K: Sink>(
    drawn: &DrawnNetwork,
    view: View,
    wanted: Wanted,
    desk: &mut Desk,
    sink: &mut K,
) -> Result<Answer, PutFailed>
    requires view { IsViewOf drawn.now.net view }
    requires set { IsSet drawn.now.net desk.old }
    ensures answers { IfOk result (λ answer. (text : List ℕ)
        × AnswersFall drawn.now wanted.turns wanted.cert answer text × (K.state sink.new ≡ grown (K.state sink.old) text)) }
    ensures begins { OnErr result ((text : List ℕ)
        × BeginsFall drawn.now wanted.turns wanted.cert text × CutShort (K.state sink.old) (K.state sink.new) text) }
{
    put_front(view, drawn, &mut desk.buffer, sink)?;
    let word = print_bounds(drawn, wanted, desk, sink)?;
    Ok(answer_of(word))
}

// Puts the heading, the view and the events.
fn put_front<K: Sink>(
    view: View,
    drawn: &DrawnNetwork,
    buffer: &mut LineBuffer,
    sink: &mut K,
) -> Result<(), PutFailed>
    ensures { Puts (K.state sink.old) (K.state sink.new) (front_text drawn.now view) result }
{
    sink.put(b"itv fall 1\n")?;
    put_view(view, sink)?;
    put_events(drawn, buffer, sink)
}

fn put_view<K: Sink>(view: View, sink: &mut K) -> Result<(), PutFailed>
    ensures { Puts (K.state sink.old) (K.state sink.new) (view_text view) result }
{
    match view {
        View::Plain => sink.put(b"view plain\n"),
        View::Negated => sink.put(b"view negated\n"),
    }
}

// Writes the finding, the rows after a consistent finding, and the word at the end.
fn print_bounds<K: Sink>(
    drawn: &DrawnNetwork,
    wanted: Wanted,
    desk: &mut Desk,
    sink: &mut K,
) -> Result<EndWord, PutFailed>
    requires set { IsSet drawn.now.net desk.old }
    ensures goes { (view : View) → IsViewOf drawn.now.net view
        → WritesPieces (asked drawn.now view wanted) at_finding at_last (K.state sink.old) (K.state sink.new) result }
{
    let found = print_finding(drawn.network(), wanted, desk, sink)?;
    let word = print_behind(found, drawn, wanted, desk, sink)?;
    write_item(&Item::End(word), &mut desk.buffer, sink)?;
    Ok(word)
}

// Writes the rows after a consistent finding. Returns the word at the end.
fn print_behind<K: Sink>(
    found: Consistency,
    drawn: &DrawnNetwork,
    wanted: Wanted,
    desk: &mut Desk,
    sink: &mut K,
) -> Result<EndWord, PutFailed>
    requires set { IsSet drawn.now.net desk.old }
    requires found { HasFound drawn.now.net found }
    ensures goes { (view : View) → IsViewOf drawn.now.net view
        → WritesPieces (asked drawn.now view wanted) (behind_found found) at_end (K.state sink.old) (K.state sink.new) result }
{
    match found {
        Consistency::Consistent => {
            let is_spent = print_rows(drawn, wanted, desk, sink)?;
            Ok(end_word(is_spent))
        }
        Consistency::Inconsistent => Ok(EndWord::Inconsistent),
        Consistency::Open => Ok(EndWord::Undecided),
    }
}

// The word at the end after a consistent finding. It depends on whether the turns of a bound were spent.
fn end_word(is_spent: bool) -> EndWord
    ensures { result ≡ end_word is_spent }
{
    if is_spent {
        EndWord::Undecided
    } else {
        EndWord::Pass
    }
}
