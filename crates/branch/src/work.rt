//! The working memory of the searches.

ghost use Rattle.std.specs.Prelude.{◌≡◌, ◌<◌, ◌≤ℤ◌, ◌↔◌, ℤ, List, All, IsTrue, IsSome, IsSomeAnd, IfOk, IfSome, OnOk, OnErr, Ok, Some, None, length};
ghost use Rattle.itv_base.specs.Outside.{FaultCounted};
ghost use Rattle.event_graph.specs.Proof.{Bound as BoundGoal, Nothing, ProofLine};
ghost use Rattle.event_graph.specs.Satisfying.{Satisfies};
ghost use Rattle.event_graph.specs.Times.{separation};
ghost use Rattle.branch.specs.Answers.{IsGreatestAnswer, Finds, IsCounted, IsRoot, IsRootReach, evidence};
ghost use Rattle.event_graph.specs.Reading.{AtEachSplit};
ghost use Rattle.branch.specs.Lines.{IsAccepted};
ghost use Rattle.branch.specs.Needed.{IsNeededToBound, IsNeededToFind};
ghost use Rattle.branch.specs.Work.{IsClose, IsMadeFor, IsKnownReach, IsStart, known_separation};

use crate::answer::Root;
use crate::best::{Aim, Best};
use crate::bounding::{bound_pair, root_of};
use crate::distances::Distances;
use crate::finding::find_times;
use crate::search::Search;
use crate::trial::Trial;
use diff_bounds::Bounds;
use event_graph::{Decisions, Network, Scribe, ScribeFailed, separation};
use itv_base::{END_LIMIT, EventId, MAX_EVENTS, NoMemory};
use requirements::{Bound, Consistency};
use std::alloc::Global;
use std::marker::Model;

/// The greatest absolute value, in picoseconds, of the separation of a pair in times that a search starts from. Times that [`find`]
/// finds have no greater separation.
pub const MAX_START: i64 = 3 * END_LIMIT * MAX_EVENTS as i64;

/// The working memory of the searches on one network. It keeps the times that the last [`find`] found, which are the known times.
/// It also keeps what the last search found out.
#[derive(Drop)]
pub struct Work {
    search: Search,
    trial: Trial,
    best: Best,
    known: Vec<i64>,
    has_known: bool,
}

impl Model for Work {
    ghost use Rattle.branch.specs.Work.{WorkView};

    ghost Value = { WorkView };

    ghost use Rattle.branch.specs.Step.Inside.{IsSoundWork, view_in};

    ghost view = { view_in };

    ghost invariant = { IsSoundWork };
}

impl Work {
    /// Makes working memory for a network. Takes all the memory that the searches ever need, or returns `NoMemory`. There are no
    /// known times yet.
    pub fn new(alloc: Global, net: &Network) -> Result<Work, NoMemory>
        ensures made { IfOk result (IsMadeFor net.now) }
        ensures known { IfOk result (λ work. work.known ≡ None) }
        ensures leaves { IfOk result (λ work. work.leaves ≡ 0) }
    {
        let events = net.events() as usize;
        Ok(Work {
            known: Vec::from_elem(alloc, 0, events)?,
            has_known: false,
            best: Best {
                value: 0,
                times: Vec::from_elem(alloc, 0, events)?,
            },
            trial: Trial {
                candidate: Vec::from_elem(alloc, 0, events)?,
                ray: Vec::from_elem(alloc, false, events)?,
                distances: Distances::new(alloc, net)?,
            },
            search: Search {
                cases: Decisions::new(alloc, net.len())?,
                bounds: Bounds::new(alloc, net)?,
                leaves: 0,
                budget: 0,
            },
        })
    }

    /// How many cases the last search closed.
    pub fn leaves(&self) -> u64
        ensures { result ≡ self.now.leaves }
    {
        self.search.leaves
    }

    /// Whether there are known times.
    pub fn has_known(&self) -> bool
        ensures { IsTrue result ↔ IsSome self.now.known }
    {
        self.has_known
    }

    /// The known times in picoseconds, one per event.
    pub fn known(&self) -> &[i64]
        requires { IsSome self.now.known }
        ensures known { self.now.known ≡ Some result.now }
        ensures close { All IsClose result.now }
    {
        &self.known
    }

    /// The times that the last search for a bound found, in picoseconds, one per event.
    pub fn times(&self) -> &[i64]
        ensures { result.now ≡ self.now.times }
    {
        &self.best.times
    }

    /// For each event whether it can be raised from the times, if the last search for a bound answered
    /// [`Bound::Unbounded`].
    pub fn ray(&self) -> &[bool]
        ensures { result.now ≡ self.now.ray }
    {
        &self.trial.ray
    }
}

/// Looks for times that satisfy a network. The search goes over the causes of latest and earliest constraints, and closes at most
/// `budget` cases. It splits a case on a constraint that the times of its bounds break. It closes a case whose edges close a loop
/// with a negative sum. If there are such times, they are the known times afterwards; after every other result there are no known
/// times. The scribe writes the lines of a proof that no times satisfy, as far as the search came.
///
/// The networks and their search are after McMillan and Dill, Algorithms for interface timing verification (1992).
pub fn find<S: Scribe>(
    work: &mut Work,
    net: &Network,
    budget: u64,
    scribe: &mut S,
) -> Result<Consistency, ScribeFailed>
    requires made { IsMadeFor net.now work.old }
    requires budget { 0 < budget }
    ensures made { IsMadeFor net.now work.new }
    ensures known { IsSome work.new.known ↔ (result ≡ Ok Consistency.Consistent) }
    ensures lines { IfOk result (λ found. (lines : List ProofLine) × S.Grew scribe.old lines scribe.new
        × Finds net.now budget lines work.new.leaves work.new.known found
        × AtEachSplit net.now (IsNeededToFind net.now) lines) }
    ensures count { IsCounted net.now budget work.new.leaves }
    ensures cut { OnErr result ((lines : List ProofLine) × S.WasCut scribe.old lines scribe.new
        × IsAccepted net.now Nothing lines × AtEachSplit net.now (IsNeededToFind net.now) lines) }
    ensures close { IfSome work.new.known (All IsClose) }
    ensures rose { OnErr result (FaultCounted (S.faults scribe.old) (S.faults scribe.new)) }
{
    work.has_known = false;
    let found = find_times(
        net,
        &mut work.search,
        &mut work.trial.candidate,
        &work.trial.distances,
        budget,
        scribe,
    )?;
    if found == Consistency::Consistent {
        work.known.copy_from_slice(&work.trial.candidate);
        work.has_known = true;
    }
    Ok(found)
}

/// Finds the greatest separation of a pair of events. The search starts from the known times, and closes at most `budget` cases. It
/// closes a case if the bounds of the case allow no more than the best separation so far, or if satisfying times attain them. The
/// scribe writes the lines of a proof of the answer, as far as the search came. The known times stay.
pub fn greatest<S: Scribe>(
    work: &mut Work,
    net: &Network,
    from: EventId,
    to: EventId,
    budget: u64,
    scribe: &mut S,
) -> Result<Bound, ScribeFailed>
    requires made { IsMadeFor net.now work.old }
    requires known { IsSomeAnd work.old.known (λ times. Satisfies times net.now) }
    requires from { from.0 < net.now.events }
    requires to { to.0 < net.now.events }
    requires budget { 0 < budget }
    ensures made { IsMadeFor net.now work.new }
    ensures known { work.new.known ≡ work.old.known }
    ensures lines { IfOk result (λ answer. (lines : List ProofLine) × S.Grew scribe.old lines scribe.new
        × IsGreatestAnswer (record { net = net.now; from = from; to = to; budget = budget }) (evidence lines work.new) answer
        × AtEachSplit net.now (IsNeededToBound net.now from to (known_separation work.old from to)) lines) }
    ensures count { IsCounted net.now budget work.new.leaves }
    ensures times { OnOk result (Satisfies work.new.times net.now) }
    ensures close { OnOk result (All IsClose work.new.times) }
    ensures reached { OnOk result (IsKnownReach (separation work.new.times from to)) }
    ensures least { OnOk result (known_separation work.old from to ≤ℤ separation work.new.times from to) }
    ensures cut { OnErr result ((lines : List ProofLine) × S.WasCut scribe.old lines scribe.new
        × ((value : ℤ) × IsAccepted net.now (BoundGoal from to value) lines)
        × AtEachSplit net.now (IsNeededToBound net.now from to (known_separation work.old from to)) lines) }
    ensures rose { OnErr result (FaultCounted (S.faults scribe.old) (S.faults scribe.new)) }
{
    let known = separation(&work.known, from, to);
    work.best.take(known, &work.known);
    bound_pair(
        net,
        &mut work.search,
        &mut work.trial,
        &mut work.best,
        Aim { from, to, known },
        budget,
        scribe,
    )
}

/// Finds the greatest separation of a pair of events like [`greatest`], but the search starts from given times in place of the
/// known times. The nearer their separation is to the greatest, the fewer cases are split. The known times stay.
pub fn greatest_from<S: Scribe>(
    work: &mut Work,
    net: &Network,
    from: EventId,
    to: EventId,
    times: &[i64],
    budget: u64,
    scribe: &mut S,
) -> Result<Bound, ScribeFailed>
    requires made { IsMadeFor net.now work.old }
    requires times { Satisfies times.now net.now }
    requires close { All IsClose times.now }
    requires start { IsStart (separation times.now from to) }
    requires from { from.0 < net.now.events }
    requires to { to.0 < net.now.events }
    requires budget { 0 < budget }
    ensures made { IsMadeFor net.now work.new }
    ensures known { work.new.known ≡ work.old.known }
    ensures lines { IfOk result (λ answer. (lines : List ProofLine) × S.Grew scribe.old lines scribe.new
        × IsGreatestAnswer (record { net = net.now; from = from; to = to; budget = budget }) (evidence lines work.new) answer
        × AtEachSplit net.now (IsNeededToBound net.now from to (separation times.now from to)) lines) }
    ensures count { IsCounted net.now budget work.new.leaves }
    ensures times { OnOk result (Satisfies work.new.times net.now) }
    ensures close { OnOk result (All IsClose work.new.times) }
    ensures reached { OnOk result (IsKnownReach (separation work.new.times from to)) }
    ensures least { OnOk result (separation times.now from to ≤ℤ separation work.new.times from to) }
    ensures cut { OnErr result ((lines : List ProofLine) × S.WasCut scribe.old lines scribe.new
        × ((value : ℤ) × IsAccepted net.now (BoundGoal from to value) lines)
        × AtEachSplit net.now (IsNeededToBound net.now from to (separation times.now from to)) lines) }
    ensures rose { OnErr result (FaultCounted (S.faults scribe.old) (S.faults scribe.new)) }
{
    let known = separation(times, from, to);
    work.best.take(known, times);
    bound_pair(
        net,
        &mut work.search,
        &mut work.trial,
        &mut work.best,
        Aim { from, to, known },
        budget,
        scribe,
    )
}

/// The root bound of a pair of events: its greatest separation over the times that meet the always-edges alone. The known times,
/// the count of closed cases, the times and the ray stay.
pub fn root_bound(work: &mut Work, net: &Network, from: EventId, to: EventId) -> Root
    requires made { IsMadeFor net.now work.old }
    requires from { from.0 < net.now.events }
    requires to { to.0 < net.now.events }
    ensures root { IsRoot net.now from to result }
    ensures within { IsRootReach result }
    ensures made { IsMadeFor net.now work.new }
    ensures others { work.new ≡ record work.old { bounds = work.new.bounds } }
{
    root_of(net, &mut work.search, from, to)
}
