//! Checking the finding.

ghost use Rattle.std.specs.Prelude.{◌≡◌, ◌<◌, ◌<ℤ◌, ◌++◌, ◌↔◌, ℕ, ℤ, neg_ℤ, pos, true, IfOk, IsTrue, List};
ghost use Rattle.std.specs.Global.{Vec};
ghost use Rattle.line_words.specs.Numbers.{IsLong};
ghost use Rattle.requirements.specs.declared.consistency.Consistency.TheVariants.{Inconsistent as IsInconsistentWord};
ghost use Rattle.slack_report.specs.Entry.{finding as entry_finding, times as entry_times};
ghost use Rattle.slack_report.specs.Text.{entry_text};
ghost use Rattle.event_graph.specs.Network.{Net};
ghost use Rattle.falling.specs.Cap.{far_line};
ghost use Rattle.edge_clauses.specs.Proofs.{IsProofAs};
ghost use Rattle.job_settle.specs.declared.finding.Finding.{Finding};
ghost use Rattle.job_settle.specs.declared.finding.Finding.TheVariants.{Consistent, Inconsistent};
ghost use Rattle.job_settle.specs.declared.proof.Proof.{Proof};
ghost use Rattle.job_settle.specs.Answers.{ArePrintedTimes, IsFinding, IsRefuted, first_event};
ghost use Rattle.job_settle.specs.Text.{finding_text, shown_text};
ghost use Rattle.job_confirm.specs.Step.{AreViewsOf, Gives, IsSameFinding};

use crate::check_stop::CheckStop;
use crate::proof::proof_next;
use crate::reader::Reader;
use crate::times::are_printed;
use crate::views::Views;
use clause_texts::have_texts;
use event_graph::{Network, Pair, time_of};
use itv_base::EventId;
use job_settle::{Finding, Proof};
use std::alloc::Global;

// The proof that no times satisfy is of the pair of this event and itself.
const FIRST: EventId = EventId(0);

/// Reads and checks the finding that stands next: with times that satisfy, or with the proof that no times do, or that
/// the turns were spent. Refuses the first line at which it does not hold.
pub fn finding_next(
    alloc: Global,
    net: &Network,
    views: &Views,
    reader: &mut Reader<'_>,
) -> Result<Finding, CheckStop>
    requires views { AreViewsOf net.now views.now }
    ensures finding { IfOk result (IsFinding true net.now) }
    ensures read { (shown : Finding) → (more : List ℕ) → IsFinding true net.now shown → reader.old.rest.now ≡ finding_text true shown ++ more
        → Gives (IsSameFinding shown) result }
{
    if reader.passes(b"finding spent") {
        return Ok(Finding::Open);
    }
    if reader.passes(b"finding consistent") {
        return consistent_next(alloc, net, reader);
    }
    refuted_next(alloc, net, views, reader)
}

// Reads and checks times that satisfy, with event 0 at 0.
fn consistent_next(
    alloc: Global,
    net: &Network,
    reader: &mut Reader<'_>,
) -> Result<Finding, CheckStop>
    ensures finding { IfOk result (IsFinding true net.now) }
    ensures read { (shown : Vec ℤ) → (more : List ℕ) → ArePrintedTimes net.now first_event shown.items → reader.old.rest.now ≡ entry_text (entry_times shown.items) ++ more
        → Gives (IsSameFinding (Consistent shown)) result }
{
    let times = reader.times(alloc)?;
    if !are_first(net, &times) {
        return Err(reader.refused());
    }
    reader.pass();
    Ok(Finding::Consistent(times))
}

// Whether times can be printed and satisfy, with event 0 at 0.
fn are_first(net: &Network, times: &[i64]) -> bool
    ensures first { IsTrue result ↔ ArePrintedTimes net.now first_event times.now }
{
    are_printed(net, times) && time_of(times, FIRST) == 0
}

// Reads and checks a proof that no times satisfy. Without events there is no such proof.
fn refuted_next(
    alloc: Global,
    net: &Network,
    views: &Views,
    reader: &mut Reader<'_>,
) -> Result<Finding, CheckStop>
    requires views { AreViewsOf net.now views.now }
    ensures finding { IfOk result (IsFinding true net.now) }
    ensures read { (shown : Proof) → (more : List ℕ) → IsRefuted true net.now shown
        → reader.old.rest.now ≡ shown_text true shown ++ (entry_text (entry_finding IsInconsistentWord) ++ more) → Gives (IsSameFinding (Inconsistent shown)) result }
{
    if net.events() == 0 {
        return Err(reader.refused());
    }
    let pair = Pair {
        from: FIRST,
        to: FIRST,
    };
    let proof = proof_next(alloc, net, views, pair, reader)?;
    if !is_low(views, proof.claim) {
        return Err(reader.refused());
    }
    if !reader.passes(b"finding inconsistent") {
        return Err(reader.refused());
    }
    Ok(refuted_by(net, proof))
}

// Whether a claim is below minus the far line. A proof of such a claim shows that no times satisfy.
fn is_low(views: &Views, claim: i64) -> bool
    ensures low { (net : Net) → AreViewsOf net views.now → IsTrue result ↔ (claim <ℤ neg_ℤ (pos (far_line net))) }
{
    claim < views.limits.lowest
}

// The finding that no times satisfy, with its proof.
fn refuted_by(net: &Network, proof: Proof) -> Finding
    requires some { 0 < net.now.events }
    requires low { proof.claim <ℤ neg_ℤ (pos (far_line net.now)) }
    requires fits { IsLong proof.claim }
    requires proof { IsProofAs proof.view net.now first_event first_event proof.claim proof.lines.items }
    ensures finding { IsFinding true net.now result }
    ensures is { result ≡ Inconsistent proof }
{
    net.is_whole();
    have_texts(&proof.lines);
    Finding::Inconsistent(proof)
}
