//! Writing a report.

ghost use Rattle.std.specs.Prelude.{◌≡◌, ◌≤◌, ◌∷◌, ℕ, ℤ, Bool, [], List, All, IfOk, OnErr, length};
ghost use Rattle.itv_base.specs.declared.limits.TheConstants.{MAX_BUDGET, MAX_ROWS};
ghost use Rattle.itv_base.specs.Outside.{CutShort, Puts, grown};
ghost use Rattle.slack_report.specs.Entry.{heading, budget as entry_budget};
ghost use Rattle.right_report.specs.Right.ReportState.{at_event, at_events};
ghost use Rattle.event_graph.specs.Network.{Net};
ghost use Rattle.job_bounds.specs.Step.Searched.{sized};
ghost use Rattle.slack_report.specs.Text.{report_text};
ghost use Rattle.job_bounds.specs.Step.Ready.{IsSet};
ghost use Rattle.job_bounds.specs.Step.Writing.{WritesVerdicts};
ghost use Rattle.job_base.specs.JobWrote.{JobWrote};
ghost use Rattle.drawn_networks.specs.Drawn.{IsRowOf};
ghost use Rattle.job_bounds.specs.Reports.{MayHaveBegun, Reports};

use crate::desk::Desk;
use crate::finding::print_finding;
use crate::rows::print_rows;
use crate::summary::Summary;
use crate::wanted::Wanted;
use drawn_networks::DrawnNetwork;
use itv_base::{PutFailed, Sink};
use job_base::Unanswered;
use line_words::LineBuffer;
use slack_report::{Item, write_item};
use std::alloc::Global;

/// Writes the report of a drawn network: the finding, and for each row its bounds, with the verdict if it is a requirement. Each search closes at
/// most `budget` cases. With `cert` the lines of proofs are printed before the lines that they show. The call takes all memory before the first put.
pub fn write_bounds<K: Sink>(
    alloc: Global,
    drawn: &DrawnNetwork,
    budget: u64,
    cert: bool,
    sink: &mut K,
) -> Result<Summary, Unanswered>
    requires least { 1 ≤ budget }
    requires most { budget ≤ MAX_BUDGET }
    ensures works { JobWrote (Reports drawn.now budget cert) (MayHaveBegun drawn.now budget cert)
        (K.state sink.old) (K.state sink.new) result }
{
    let mut desk = Desk::new(alloc, drawn.network())?;
    // The rows are between events, and within their limit.
    let _rows = drawn.rows();
    let wanted = Wanted { budget, cert };
    let written = print_report(drawn, wanted, &mut desk, sink);
    drop(desk);
    Ok(written?)
}

// Writes the whole report.
fn print_report<K: Sink>(
    drawn: &DrawnNetwork,
    wanted: Wanted,
    desk: &mut Desk,
    sink: &mut K,
) -> Result<Summary, PutFailed>
    requires least { 1 ≤ wanted.budget }
    requires most { wanted.budget ≤ MAX_BUDGET }
    requires rows { length drawn.now.rows ≤ MAX_ROWS }
    requires within { All (IsRowOf drawn.now.net) drawn.now.rows }
    requires set { IsSet drawn.now.net desk.old }
    ensures reports { IfOk result (λ summary. (text : List ℕ) × Reports drawn.now wanted.budget wanted.cert summary text
        × (K.state sink.new ≡ grown (K.state sink.old) text)) }
    ensures begins { OnErr result ((text : List ℕ) × MayHaveBegun drawn.now wanted.budget wanted.cert text
        × CutShort (K.state sink.old) (K.state sink.new) text) }
{
    put_front(wanted.budget, &mut desk.buffer, sink)?;
    put_events(drawn, &mut desk.buffer, sink)?;
    let found = print_finding(drawn.network(), wanted, desk, sink)?;
    let tally = print_rows(found, drawn, wanted, desk, sink)?;
    let word = tally.report.end_word();
    write_item(&Item::End(word), &mut desk.buffer, sink)?;
    Ok(Summary {
        end: word,
        passes: tally.passes,
        fails: tally.fails,
        undecided: tally.undecided,
    })
}

// Writes the heading, and how many cases each search may close.
fn put_front<K: Sink>(budget: u64, buffer: &mut LineBuffer, sink: &mut K) -> Result<(), PutFailed>
    ensures puts { Puts (K.state sink.old) (K.state sink.new) (report_text (heading ∷ entry_budget budget ∷ [])) result }
{
    write_item(&Item::Heading, buffer, sink)?;
    write_item(&Item::Budget { budget }, buffer, sink)
}

// Writes how many events there are, and their names.
fn put_events<K: Sink>(
    drawn: &DrawnNetwork,
    buffer: &mut LineBuffer,
    sink: &mut K,
) -> Result<(), PutFailed>
    ensures goes { (net : Net) (most : ℕ) (cert : Bool) (times : List ℤ) → WritesVerdicts (sized net most cert times) drawn.now at_events
        (λ _. at_event drawn.now.net.events []) (λ _. [])
        (K.state sink.old) (K.state sink.new) result }
{
    // There is a name for each event.
    let _network = drawn.network();
    job_base::put_events(drawn, buffer, sink)
}
