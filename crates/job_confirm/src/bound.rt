//! Checking a bound of a row.

ghost use Rattle.std.specs.Prelude.{◌≡◌, ◌∷◌, ◌<ℤ◌, ◌++◌, ◌↔◌, ℕ, ℤ, pos, true, [], IfOk, Bool, IsTrue, List, codes};
ghost use Rattle.std.specs.Global.{Vec};
ghost use Rattle.line_words.specs.Lines.{line_of};
ghost use Rattle.event_graph.specs.Network.{Net};
ghost use Rattle.event_graph.specs.Times.{separation};
ghost use Rattle.requirements.specs.Bounds.{HasTimes};
ghost use Rattle.drawn_networks.specs.Drawn.{IsRowOf};
ghost use Rattle.falling.specs.Cap.{far_line};
ghost use Rattle.edge_clauses.specs.Proofs.{IsProofAs};
ghost use Rattle.requirements.specs.declared.bound.Bound.TheVariants as bounds;
ghost use Rattle.slack_report.specs.Entry.{bound as entry_bound, raise, times as entry_times};
ghost use Rattle.slack_report.specs.Text.{entry_line, entry_text, which_word};
ghost use Rattle.job_settle.specs.declared.bound.SettledBound.{SettledBound};
ghost use Rattle.job_settle.specs.declared.bound.SettledBound.TheVariants.{Closed, Unbounded};
ghost use Rattle.job_settle.specs.declared.proof.Proof.{Proof};
ghost use Rattle.job_settle.specs.Answers.{ArePrintedTimes, IsBound, IsEndless, IsNumber, bound_of};
ghost use Rattle.job_settle.specs.Text.{bound_text, shown_text};
ghost use Rattle.job_confirm.specs.Step.{AreViewsOf, Gives, IsSameBound, claim_of, pair_of};

use crate::check_stop::CheckStop;
use crate::pair::pair_of;
use crate::proof::proof_next;
use crate::reader::Reader;
use crate::times::{attain, can_rise, row_times_next};
use crate::views::Views;
use clause_texts::have_texts;
use drawn_networks::Row;
use event_graph::Network;
use job_settle::{Proof, SettledBound};
use slack_report::Which;
use std::alloc::Global;

/// Reads and checks the bound of a row that stands next: a number with its proof and times, or that there is none with
/// times and a ray, or that the turns were spent. Refuses the first line at which it does not hold.
pub fn bound_next(
    alloc: Global,
    which: Which,
    row: &Row,
    net: &Network,
    views: &Views,
    reader: &mut Reader<'_>,
) -> Result<SettledBound, CheckStop>
    requires views { AreViewsOf net.now views.now }
    requires row { IsRowOf net.now row.now }
    ensures bound { IfOk result (IsBound true net.now which row.now) }
    ensures times { IfOk result (λ found. HasTimes (bound_of found)) }
    ensures read { (shown : SettledBound) → (more : List ℕ) → IsBound true net.now which row.now shown
        → reader.old.rest.now ≡ bound_text true which shown ++ more → Gives (IsSameBound shown) result }
{
    if reader.passes(spent_line(which)) {
        return Ok(SettledBound::Open);
    }
    if reader.passes(unbounded_line(which)) {
        return endless_next(alloc, which, row, net, reader);
    }
    number_next(alloc, which, row, net, views, reader)
}

fn spent_line(which: Which) -> &'static [u8]
    ensures { result.now ≡ line_of (which_word which ∷ codes "spent" ∷ []) }
{
    match which {
        Which::Max => b"max spent",
        Which::Min => b"min spent",
    }
}

fn unbounded_line(which: Which) -> &'static [u8]
    ensures { result.now ≡ line_of (which_word which ∷ codes "unbounded" ∷ []) }
{
    match which {
        Which::Max => b"max unbounded",
        Which::Min => b"min unbounded",
    }
}

// Reads and checks times, and a set that can be raised from them without end.
fn endless_next(
    alloc: Global,
    which: Which,
    row: &Row,
    net: &Network,
    reader: &mut Reader<'_>,
) -> Result<SettledBound, CheckStop>
    requires row { IsRowOf net.now row.now }
    ensures bound { IfOk result (IsBound true net.now which row.now) }
    ensures times { IfOk result (λ found. HasTimes (bound_of found)) }
    ensures read { (times : Vec ℤ) → (ray : Vec Bool) → (more : List ℕ) → IsEndless net.now which row.now times.items ray.items
        → reader.old.rest.now ≡ entry_text (entry_times times.items) ++ (entry_text (raise ray.items) ++ more) → Gives (IsSameBound (Unbounded times ray)) result }
{
    let times = row_times_next(alloc, net, row, reader)?;
    reader.pass();
    let set = reader.raised(alloc, net.events())?;
    if !can_rise(net, which, row, &times, &set) {
        return Err(reader.refused());
    }
    reader.pass();
    Ok(SettledBound::Unbounded(times, set))
}

// Reads and checks a number that a proof bounds, and times that attain it.
fn number_next(
    alloc: Global,
    which: Which,
    row: &Row,
    net: &Network,
    views: &Views,
    reader: &mut Reader<'_>,
) -> Result<SettledBound, CheckStop>
    requires views { AreViewsOf net.now views.now }
    requires row { IsRowOf net.now row.now }
    ensures bound { IfOk result (IsBound true net.now which row.now) }
    ensures times { IfOk result (λ found. HasTimes (bound_of found)) }
    ensures read { (value : ℤ) → (times : Vec ℤ) → (proof : Proof) → (more : List ℕ) → IsNumber true net.now which row.now value times.items proof
        → reader.old.rest.now ≡ shown_text true proof ++ (entry_text (entry_bound which (bounds.Closed value)) ++ (entry_text (entry_times times.items) ++ more))
        → Gives (IsSameBound (Closed value times proof)) result }
{
    net.is_whole();
    let proof = proof_next(alloc, net, views, pair_of(which, row), reader)?;
    let value = reader.number(alloc, which)?;
    if !is_claimed(which, value, proof.claim) {
        return Err(reader.refused());
    }
    if !is_near(views, proof.claim) {
        return Err(reader.refused());
    }
    reader.pass();
    let times = row_times_next(alloc, net, row, reader)?;
    if !attain(row, value, &times) {
        return Err(reader.refused());
    }
    reader.pass();
    Ok(number_of(net, which, row, value, times, proof))
}

// Whether a claim is the greatest separation of the bound's pair, for this number of the bound.
fn is_claimed(which: Which, value: i64, claim: i64) -> bool
    ensures claimed { IsTrue result → claim ≡ claim_of which value }
    ensures given { claim ≡ claim_of which value → IsTrue result }
{
    match which {
        Which::Max => claim == value,
        Which::Min => value.checked_neg() == Some(claim),
    }
}

// Whether a claim is below the far line. A proof of such a claim bounds the separation.
fn is_near(views: &Views, claim: i64) -> bool
    ensures near { (net : Net) → AreViewsOf net views.now → IsTrue result ↔ (claim <ℤ pos (far_line net)) }
{
    claim < views.limits.far
}

// The bound with a number that is proved and attained.
fn number_of(
    net: &Network,
    which: Which,
    row: &Row,
    value: i64,
    times: Vec<i64>,
    proof: Proof,
) -> SettledBound
    requires row { IsRowOf net.now row.now }
    requires times { ArePrintedTimes net.now row.now.from times.items }
    requires attained { separation times.items row.now.from row.now.to ≡ value }
    requires claim { proof.claim ≡ claim_of which value }
    requires near { proof.claim <ℤ pos (far_line net.now) }
    requires proof { let pair = pair_of which row.now in IsProofAs proof.view net.now pair.from pair.to proof.claim proof.lines.items }
    ensures bound { IsBound true net.now which row.now result }
    ensures times { HasTimes (bound_of result) }
    ensures is { result ≡ Closed value times proof }
{
    net.is_whole();
    have_texts(&proof.lines);
    SettledBound::Closed(value, times, proof)
}
