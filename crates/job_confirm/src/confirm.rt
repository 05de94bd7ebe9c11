//! Checking a text from its front to its end.

ghost use Rattle.std.specs.Prelude.{◌≡◌, ◌≤◌, ◌++◌, ℕ, true, IfOk, List, drop, length};
ghost use Rattle.job_settle.specs.declared.finding.Finding.{Finding};
ghost use Rattle.job_settle.specs.Answers.{IsFinding};
ghost use Rattle.job_settle.specs.Settle.{IsSettleText};
ghost use Rattle.job_settle.specs.Text.{finding_text};
ghost use Rattle.job_confirm.specs.Confirm.{IsSettledTo};
ghost use Rattle.job_confirm.specs.Step.{AreViewsOf, Gives, GivesSome, IsPieceAt, IsSameFinding};

use crate::check_stop::CheckStop;
use crate::compare::{behind_ending, behind_finding, behind_front};
use crate::finding::finding_next;
use crate::reader::Reader;
use crate::rows::rows_behind;
use crate::views::Views;
use drawn_networks::DrawnNetwork;
use event_graph::Network;
use job_settle::{Finding, ending_of};
use line_words::LineBuffer;
use slack_report::{EndWord, LINE_ROOM};
use std::alloc::Global;

/// Checks a text against a drawn network, part by part. Each part is read, checked, written again and compared. Gives the
/// word at the end of the text.
pub fn confirm_text(alloc: Global, drawn: &DrawnNetwork, text: &[u8]) -> Result<EndWord, CheckStop>
    ensures confirmed { IfOk result (IsSettledTo drawn.now text.now) }
    ensures whole { IsSettleText drawn.now true text.now → GivesSome result }
{
    let mut buffer = LineBuffer::new(alloc, LINE_ROOM)?;
    let views = Views::new(alloc, drawn.network())?;
    let confirmed = confirm_by(alloc, drawn, &views, text, &mut buffer);
    drop(views);
    drop(buffer);
    confirmed
}

// Checks a text against a drawn network and its views.
fn confirm_by(
    alloc: Global,
    drawn: &DrawnNetwork,
    views: &Views,
    text: &[u8],
    buffer: &mut LineBuffer,
) -> Result<EndWord, CheckStop>
    requires views { AreViewsOf drawn.now.net views.now }
    ensures confirmed { IfOk result (IsSettledTo drawn.now text.now) }
    ensures whole { IsSettleText drawn.now true text.now → GivesSome result }
{
    let net = drawn.network();
    let place = behind_front(alloc, drawn, text, buffer)?;
    let read = finding_read(alloc, net, views, text, place, buffer)?;
    let rows = rows_behind(alloc, drawn, &read.finding, views, text, read.place, buffer)?;
    let place = behind_ending(
        alloc,
        drawn,
        &read.finding,
        &rows.found,
        text,
        rows.place,
        buffer,
    )?;
    if place < text.len() {
        return Err(CheckStop::Refused {
            left: text.len() - place,
        });
    }
    Ok(ending_of(drawn, &read.finding, &rows.found))
}

// The finding that was read, and the place after it.
#[derive(Drop)]
struct FindingRead {
    finding: Finding,
    place: usize,
}

// Reads and checks the finding at a place.
fn finding_read(
    alloc: Global,
    net: &Network,
    views: &Views,
    text: &[u8],
    place: usize,
    buffer: &mut LineBuffer,
) -> Result<FindingRead, CheckStop>
    requires views { AreViewsOf net.now views.now }
    requires place { place ≤ length text.now }
    ensures finding { IfOk result (λ read. IsFinding true net.now read.finding) }
    ensures behind { IfOk result (λ read. IsPieceAt text.now place (finding_text true read.finding) read.place) }
    ensures read { (shown : Finding) → (more : List ℕ) → IsFinding true net.now shown → drop place text.now ≡ finding_text true shown ++ more
        → Gives (λ read. IsSameFinding shown read.finding × (drop read.place text.now ≡ more)) result }
{
    let finding = finding_next(alloc, net, views, &mut Reader::new(text, place))?;
    let place = behind_finding(alloc, &finding, text, place, buffer)?;
    Ok(FindingRead { finding, place })
}
