//! The bound of one pair, as a session keeps it.

ghost use Rattle.std.specs.Prelude.{◌≡◌, ◌<◌, ◌≤ℤ◌, ◌*◌, ◌↔◌, List, [], All, IfOk, IfSome, IsSomeAnd, IsTrue, length, neg_ℤ, option_map, pos, unwrap_or};
ghost use Rattle.std.specs.Option.{option_copied};
ghost use Rattle.event_graph.specs.Limits.{reach_limit};
ghost use Rattle.event_graph.specs.Proof.{Bound as BoundGoal, IsProof, ProofLine};
ghost use Rattle.event_graph.specs.Satisfying.{Satisfies};
ghost use Rattle.event_graph.specs.Times.{separation};
ghost use Rattle.branch.specs.Answers.{evidence};
ghost use Rattle.branch.specs.Work.{IsClose, IsMadeFor, IsStart};
ghost use Rattle.requirements.specs.declared.bound.Bound.TheVariants as answers;
ghost use Rattle.requirements.specs.declared.consistency.Consistency.TheVariants as findings;
ghost use Rattle.certificate.specs.Scribing.{TreeView};
ghost use Rattle.whatif.specs.Session.{HasPlaces, IsLent, IsPairOf, IsSearchedAnew, MayKeep};
ghost use Rattle.whatif.specs.Step.Bounds.{IsBetterStart, IsCloseBound, IsPairSearched, kept_of};
ghost use Rattle.whatif.specs.Step.Keeping.{KeeperGrew};

use crate::keeper::Keeper;
use crate::proving::is_proof;
use branch::{MAX_START, Work, greatest, greatest_from};
use cert_checker::{Checker, Goal};
use certificate::TreeScribe;
use event_graph::{Network, Pair, ScribeFailed};
use itv_base::NoMemory;
use requirements::{Bound, Consistency};
use std::alloc::Global;
use std::marker::Model;

/// How many lines of its proof a bound keeps at most.
pub const MAX_KEPT_LINES: u32 = 1_024;

/// How many edges a bound keeps at most, in all lines of its proof.
pub const MAX_KEPT_EDGES: u32 = 16_384;

/// What a bound keeps, lent: the times in picoseconds that the search left; for each event, whether it is raised, if
/// the bound is unbounded; and the lines of the proof, if they fit.
#[derive(Clone, Copy)]
pub struct Kept<'a> {
    pub times: &'a [i64],
    pub ray: &'a [bool],
    pub proof: Option<&'a TreeScribe>,
}

/// The greatest separation of a pair, with what shows that it is right.
#[derive(Drop)]
pub struct KeptBound {
    pair: Pair,
    answer: Bound,
    times: Vec<i64>,
    ray: Vec<bool>,
    keeper: Keeper,
}

impl Model for KeptBound {
    ghost use Rattle.std.specs.Prelude.{◌≡◌};
    ghost use Rattle.whatif.specs.Session.{KeptBound};
    ghost use Rattle.whatif.specs.declared.bound.TheConstants.{MAX_KEPT_EDGES, MAX_KEPT_LINES};

    ghost Value = { KeptBound };

    ghost view = { λ b. record { pair = b.pair; answer = b.answer; times = b.times.items; ray = b.ray.items; proof = b.keeper.lines } };

    ghost invariant = { λ b. (b.keeper.line_room ≡ MAX_KEPT_LINES) × (b.keeper.edge_room ≡ MAX_KEPT_EDGES) };
}

impl KeptBound {
    /// Room for the bound of a pair in networks with this number of events. Nothing is searched yet.
    pub fn new(alloc: Global, pair: Pair, events: u32) -> Result<KeptBound, NoMemory>
        ensures pair { IfOk result (λ b. b.pair ≡ pair) }
        ensures places { IfOk result (HasPlaces events) }
    {
        let events = events as usize;
        Ok(KeptBound {
            pair,
            answer: Bound::Unbounded,
            times: Vec::from_elem(alloc, 0, events)?,
            ray: Vec::from_elem(alloc, false, events)?,
            keeper: Keeper::new(alloc, MAX_KEPT_LINES, MAX_KEPT_EDGES)?,
        })
    }

    /// The answer of the search.
    pub fn answer(&self) -> Bound
        ensures { result ≡ self.now.answer }
    {
        self.answer
    }

    /// What the bound keeps.
    pub fn kept(&self) -> Kept<'_>
        ensures { IsLent result self.now }
    {
        Kept {
            times: &self.times,
            ray: &self.ray,
            proof: self.keeper.proof(),
        }
    }

    /// Whether the bound may be kept for a network.
    pub fn may_keep(&self, net: &Network, checker: &mut Checker) -> bool
        requires pair { IsPairOf net.now.events self.now.pair }
        requires places { HasPlaces net.now.events self.now }
        requires room { checker.old.room ≡ length net.now.constraints }
        requires close { All IsClose self.now.times }
        ensures may { IsTrue result ↔ MayKeep net.now self.now }
        ensures room { checker.new.room ≡ checker.old.room }
    {
        let Pair { from, to } = self.pair;
        match self.answer {
            Bound::Closed(value) => {
                if net.broken(&self.times).is_some() {
                    return false;
                }
                has_proof(net, checker, self.pair, value, self.keeper.proof())
            }
            Bound::Unbounded => net.is_ray(&self.times, &self.ray, from, to),
            Bound::Within { .. } => false,
        }
    }

    /// Searches the bound anew; `was` is the finding before. The search starts from the times of the bound if they are
    /// no worse a start than the known times of the working memory, and otherwise from the known times.
    pub fn search(&mut self, net: &Network, work: &mut Work, budget: u64, was: Consistency)
        requires pair { IsPairOf net.now.events self.old.pair }
        requires places { HasPlaces net.now.events self.old }
        requires made { IsMadeFor net.now work.old }
        requires known { IsSomeAnd work.old.known (λ times. Satisfies times net.now) }
        requires close { was ≡ findings.Consistent → IsCloseBound self.old }
        requires budget { 0 < budget }
        ensures made { IsMadeFor net.now work.new }
        ensures known { work.new.known ≡ work.old.known }
        ensures searched { IsSearchedAnew net.now budget (unwrap_or work.old.known []) self.old self.new }
        ensures places { HasPlaces net.now.events self.new }
    {
        self.keeper.begin();
        let starts = is_start(net, was, self.pair, &self.times, work.known());
        let answer = search_pair(
            net,
            work,
            self.pair,
            starts.then_some(&self.times),
            budget,
            &mut self.keeper,
        );
        self.answer = answer;
        self.times.copy_from_slice(work.times());
        take_ray(&mut self.ray, answer, work.ray());
        keep_by(&mut self.keeper, answer);
    }
}

// Searches the greatest separation of a pair, from the times `start` if there are any, and otherwise from the known times.
fn search_pair(
    net: &Network,
    work: &mut Work,
    pair: Pair,
    start: Option<&[i64]>,
    budget: u64,
    keeper: &mut Keeper,
) -> Bound
    requires pair { IsPairOf net.now.events pair }
    requires made { IsMadeFor net.now work.old }
    requires known { IsSomeAnd work.old.known (λ times. Satisfies times net.now) }
    requires start { IfSome start (λ times. IsBetterStart net.now pair (unwrap_or work.old.known []) times.now) }
    requires budget { 0 < budget }
    ensures made { IsMadeFor net.now work.new }
    ensures known { work.new.known ≡ work.old.known }
    ensures searched { (lines : List ProofLine) × KeeperGrew keeper.old lines keeper.new
        × IsPairSearched net.now pair budget (unwrap_or work.old.known []) (evidence lines work.new) result }
{
    let Pair { from, to } = pair;
    let searched = match start {
        Some(times) => greatest_from(work, net, from, to, times, budget, keeper),
        None => greatest(work, net, from, to, budget, keeper),
    };
    match searched {
        Ok(answer) => answer,
        Err(ScribeFailed) => {
            // A keeper never fails.
            unreachable!()
        }
    }
}

// Whether the times of a bound are no worse a start than the known times; `was` is the finding before.
fn is_start(net: &Network, was: Consistency, pair: Pair, times: &[i64], known: &[i64]) -> bool
    requires pair { IsPairOf net.now.events pair }
    requires places { length times.now ≡ net.now.events }
    requires known { Satisfies known.now net.now }
    requires known_close { All IsClose known.now }
    requires close { was ≡ findings.Consistent → All IsClose times.now }
    ensures { IsTrue result → IsBetterStart net.now pair known.now times.now }
{
    match was {
        Consistency::Consistent => {
            is_no_worse(separation_of(times, pair), separation_of(known, pair))
                && net.broken(times).is_none()
        }
        Consistency::Inconsistent | Consistency::Open => false,
    }
}

// Whether a search may start from times with the separation `own`, and this is no less than the known separation.
fn is_no_worse(own: i64, known: i64) -> bool
    ensures { IsTrue result → IsStart own × (known ≤ℤ own) }
{
    known <= own && -MAX_START <= own && own <= MAX_START
}

// The separation of a pair in times that are close.
fn separation_of(times: &[i64], pair: Pair) -> i64
    requires pair { IsPairOf (length times.now) pair }
    requires close { All IsClose times.now }
    ensures value { result ≡ separation times.now pair.from pair.to }
    ensures low { neg_ℤ (pos (9 * reach_limit)) ≤ℤ result }
    ensures high { result ≤ℤ pos (9 * reach_limit) }
{
    times[pair.to.0 as usize] - times[pair.from.0 as usize]
}

// Whether the lines are there and are a proof of a bound.
fn has_proof(
    net: &Network,
    checker: &mut Checker,
    pair: Pair,
    value: i64,
    proof: Option<&TreeScribe>,
) -> bool
    requires room { checker.old.room ≡ length net.now.constraints }
    ensures proof { IsTrue result ↔ IsSomeAnd (option_map (λ (tree : TreeView). tree.lines) (option_copied proof.entry)) (IsProof net.now (BoundGoal pair.from pair.to value)) }
    ensures room { checker.new.room ≡ checker.old.room }
{
    let Some(proof) = proof else {
        return false;
    };
    let goal = Goal::Bound {
        from: pair.from,
        to: pair.to,
        value,
    };
    is_proof(net, checker, goal, proof)
}

// Takes the events to raise, if the answer has any.
fn take_ray(ray: &mut [bool], answer: Bound, found: &[bool])
    requires places { answer ≡ answers.Unbounded → length found.now ≡ length ray.old }
    ensures ray { answer ≡ answers.Unbounded → ray.new ≡ found.now }
    ensures places { length ray.new ≡ length ray.old }
{
    match answer {
        Bound::Unbounded => ray.copy_from_slice(found),
        Bound::Closed(_) | Bound::Within { .. } => {}
    }
}

// Lets the lines go if the answer has no proof.
fn keep_by(keeper: &mut Keeper, answer: Bound)
    ensures { keeper.new ≡ record keeper.old { lines = kept_of answer keeper.old.lines } }
{
    match answer {
        Bound::Closed(_) => {}
        Bound::Unbounded | Bound::Within { .. } => keeper.forget(),
    }
}
