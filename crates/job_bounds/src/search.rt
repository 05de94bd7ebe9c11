//! Searches, which print the lines of their proofs if `wanted` asks for them.

ghost use Rattle.std.specs.Prelude.{◌≡◌, ◌<◌, ◌↔◌, All, IsSome, IsSomeAnd, IfOk, IfSome, OnOk, OnErr, Ok, true, List};
ghost use Rattle.event_graph.specs.Proof.{ProofLine};
ghost use Rattle.branch.specs.Answers.{IsCounted, evidence};
ghost use Rattle.branch.specs.Work.{IsClose, IsMadeFor, IsKnownReach, known_separation};
ghost use Rattle.event_graph.specs.Satisfying.{Satisfies};
ghost use Rattle.event_graph.specs.Times.{separation};
ghost use Rattle.job_bounds.specs.Step.Searched.{AnswersSearch, FindsBy, WroteProof, WasCut, search_of};

use crate::wanted::Wanted;
use branch::{Quiet, Work, find, greatest};
use certificate::SinkScribe;
use event_graph::{Network, Pair, ScribeFailed};
use itv_base::{PutFailed, Sink};
use line_words::LineBuffer;
use requirements::{Bound, Consistency};

/// Looks for times that satisfy a network, and prints the lines of the proof if `wanted` asks for them.
pub fn find_times<K: Sink>(
    work: &mut Work,
    net: &Network,
    wanted: Wanted,
    buffer: &mut LineBuffer,
    sink: &mut K,
) -> Result<Consistency, PutFailed>
    requires made { IsMadeFor net.now work.old }
    requires budget { 0 < wanted.budget }
    ensures made { IsMadeFor net.now work.new }
    ensures known { IsSome work.new.known ↔ (result ≡ Ok Consistency.Consistent) }
    ensures close { IfSome work.new.known (All IsClose) }
    ensures finds { IfOk result (λ found. WroteProof wanted.cert (K.state sink.old) (K.state sink.new)
        (λ lines. FindsBy net.now wanted.budget lines work.new.leaves work.new.known found)) }
    ensures count { OnOk result (IsCounted net.now wanted.budget work.new.leaves) }
    ensures cut { OnErr result (WasCut (K.state sink.old) (K.state sink.new)) }
{
    if wanted.cert {
        find_printing(work, net, wanted.budget, buffer, sink)
    } else {
        Ok(find_quietly(work, net, wanted.budget))
    }
}

/// Finds the greatest separation of a pair, and prints the lines of the proof if `wanted` asks for them.
pub fn greatest_of<K: Sink>(
    work: &mut Work,
    net: &Network,
    pair: Pair,
    wanted: Wanted,
    buffer: &mut LineBuffer,
    sink: &mut K,
) -> Result<Bound, PutFailed>
    requires made { IsMadeFor net.now work.old }
    requires known { IsSomeAnd work.old.known (λ times. Satisfies times net.now) }
    requires from { pair.from.0 < net.now.events }
    requires to { pair.to.0 < net.now.events }
    requires budget { 0 < wanted.budget }
    ensures made { IsMadeFor net.now work.new }
    ensures known { work.new.known ≡ work.old.known }
    ensures answers { IfOk result (λ answer. WroteProof wanted.cert (K.state sink.old) (K.state sink.new)
        (λ lines. AnswersSearch (search_of net.now pair wanted.budget) (known_separation work.old pair.from pair.to) (evidence lines work.new) answer)) }
    ensures count { OnOk result (IsCounted net.now wanted.budget work.new.leaves) }
    ensures times { OnOk result (Satisfies work.new.times net.now) }
    ensures close { OnOk result (All IsClose work.new.times) }
    ensures reached { OnOk result (IsKnownReach (separation work.new.times pair.from pair.to)) }
    ensures cut { OnErr result (WasCut (K.state sink.old) (K.state sink.new)) }
{
    if wanted.cert {
        greatest_printing(work, net, pair, wanted.budget, buffer, sink)
    } else {
        Ok(greatest_quietly(work, net, pair, wanted.budget))
    }
}

// ---- with the lines of proofs

fn find_printing<K: Sink>(
    work: &mut Work,
    net: &Network,
    budget: u64,
    buffer: &mut LineBuffer,
    sink: &mut K,
) -> Result<Consistency, PutFailed>
    requires made { IsMadeFor net.now work.old }
    requires budget { 0 < budget }
    ensures made { IsMadeFor net.now work.new }
    ensures known { IsSome work.new.known ↔ (result ≡ Ok Consistency.Consistent) }
    ensures close { IfSome work.new.known (All IsClose) }
    ensures finds { IfOk result (λ found. WroteProof true (K.state sink.old) (K.state sink.new)
        (λ lines. FindsBy net.now budget lines work.new.leaves work.new.known found)) }
    ensures count { OnOk result (IsCounted net.now budget work.new.leaves) }
    ensures cut { OnErr result (WasCut (K.state sink.old) (K.state sink.new)) }
{
    let mut scribe = SinkScribe { buffer, sink };
    match find(work, net, budget, &mut scribe) {
        Ok(found) => Ok(found),
        Err(ScribeFailed) => Err(PutFailed),
    }
}

fn greatest_printing<K: Sink>(
    work: &mut Work,
    net: &Network,
    pair: Pair,
    budget: u64,
    buffer: &mut LineBuffer,
    sink: &mut K,
) -> Result<Bound, PutFailed>
    requires made { IsMadeFor net.now work.old }
    requires known { IsSomeAnd work.old.known (λ times. Satisfies times net.now) }
    requires from { pair.from.0 < net.now.events }
    requires to { pair.to.0 < net.now.events }
    requires budget { 0 < budget }
    ensures made { IsMadeFor net.now work.new }
    ensures known { work.new.known ≡ work.old.known }
    ensures answers { IfOk result (λ answer. WroteProof true (K.state sink.old) (K.state sink.new)
        (λ lines. AnswersSearch (search_of net.now pair budget) (known_separation work.old pair.from pair.to) (evidence lines work.new) answer)) }
    ensures count { OnOk result (IsCounted net.now budget work.new.leaves) }
    ensures times { OnOk result (Satisfies work.new.times net.now) }
    ensures close { OnOk result (All IsClose work.new.times) }
    ensures reached { OnOk result (IsKnownReach (separation work.new.times pair.from pair.to)) }
    ensures cut { OnErr result (WasCut (K.state sink.old) (K.state sink.new)) }
{
    let mut scribe = SinkScribe { buffer, sink };
    match greatest(work, net, pair.from, pair.to, budget, &mut scribe) {
        Ok(answer) => Ok(answer),
        Err(ScribeFailed) => Err(PutFailed),
    }
}

// ---- without the lines of proofs

fn find_quietly(work: &mut Work, net: &Network, budget: u64) -> Consistency
    requires made { IsMadeFor net.now work.old }
    requires budget { 0 < budget }
    ensures made { IsMadeFor net.now work.new }
    ensures known { IsSome work.new.known ↔ (result ≡ Consistency.Consistent) }
    ensures close { IfSome work.new.known (All IsClose) }
    ensures finds { (lines : List ProofLine)
        × FindsBy net.now budget lines work.new.leaves work.new.known result }
    ensures count { IsCounted net.now budget work.new.leaves }
{
    match find(work, net, budget, &mut Quiet) {
        Ok(found) => found,
        Err(ScribeFailed) => unreachable!(),
    }
}

fn greatest_quietly(work: &mut Work, net: &Network, pair: Pair, budget: u64) -> Bound
    requires made { IsMadeFor net.now work.old }
    requires known { IsSomeAnd work.old.known (λ times. Satisfies times net.now) }
    requires from { pair.from.0 < net.now.events }
    requires to { pair.to.0 < net.now.events }
    requires budget { 0 < budget }
    ensures made { IsMadeFor net.now work.new }
    ensures known { work.new.known ≡ work.old.known }
    ensures answers { (lines : List ProofLine)
        × AnswersSearch (search_of net.now pair budget) (known_separation work.old pair.from pair.to) (evidence lines work.new) result }
    ensures count { IsCounted net.now budget work.new.leaves }
    ensures times { Satisfies work.new.times net.now }
    ensures close { All IsClose work.new.times }
    ensures reached { IsKnownReach (separation work.new.times pair.from pair.to) }
{
    match greatest(work, net, pair.from, pair.to, budget, &mut Quiet) {
        Ok(answer) => answer,
        Err(ScribeFailed) => unreachable!(),
    }
}
