//! The two searches of a network.

ghost use Rattle.std.specs.Prelude.{◌≡◌, ◌<◌, ◌≤◌, ℤ, false, Some, None, List, IfOk, IfSome, IsSome, IsSomeAnd, length};
ghost use Rattle.event_graph.specs.Bounds.{IsInconsistent};
ghost use Rattle.event_graph.specs.Edges.{cause_choices};
ghost use Rattle.event_graph.specs.RootBound.{IsRootBound, MeetsAlways};
ghost use Rattle.event_graph.specs.Times.{IsTime};
ghost use Rattle.requirements.specs.Separations.{is_open};
ghost use Rattle.extremes.specs.Found.{IsConsistency, IsContradictionFound, IsFindingOpen, IsGreatestFound, IsOpenShown};
ghost use Rattle.extremes.specs.Ready.{AreTurnsOf, IsContradicted, IsFor, IsReady};
ghost use Rattle.extremes.specs.Step.{IsFoundBy};
ghost use Rattle.chains.specs.Named.{IsRefuting};

use crate::by_cases::{greatest_from_known, greatest_from_start};
use crate::by_clauses::{ClauseFinding, find_by_clauses, greatest_by_clauses};
use crate::confirming::confirmed;
use crate::found::Greatest;
use branch::{Quiet, Root, ScribeFailed, Work, find, root_bound};
use chains::Marking;
use event_graph::Network;
use itv_base::{EventId, NoMemory};
use requirements::Consistency;
use settle::{RunTurns, Settler};
use std::alloc::Global;

/// The cases of a first search. Where few cases are not enough, a search by clauses mostly is, and takes less time than many cases.
pub const FIRST_CASES: u64 = 8;

/// The memory for both searches of a network, how many cases a search may close, and how many turns searches by clauses may take. Every call needs the
/// network that it was made for.
///
/// A least separation is minus the greatest separation of the reversed pair.
#[derive(Drop)]
pub struct Extremes {
    work: Work,
    settler: Settler,
    marking: Marking,
    // Times that a search by clauses found, from which a search by cases can start.
    start: Option<Vec<i64>>,
    // The constraints that the lines of a search by clauses name, if it found that no times satisfy.
    guess: Option<Vec<bool>>,
    budget: u64,
    turns: RunTurns,
}

impl Extremes {
    /// Takes the memory for the searches by cases and for the negation of the network, or answers `NoMemory`. Nothing is searched yet.
    pub fn new(
        alloc: Global,
        net: &Network,
        budget: u64,
        turns: RunTurns,
    ) -> Result<Extremes, NoMemory>
        requires budget { 1 ≤ budget }
        ensures made { IfOk result (IsFor net.now) }
        ensures budget { IfOk result (λ extremes. extremes.budget ≡ budget) }
        ensures turns { IfOk result (λ extremes. extremes.turns ≡ turns) }
    {
        let settler = Settler::new(alloc, net)?;
        let marking = Marking::new(alloc, net)?;
        match Work::new(alloc, net) {
            Ok(work) => Ok(Extremes {
                work,
                settler,
                marking,
                start: None,
                guess: None,
                budget,
                turns,
            }),
            Err(NoMemory) => {
                drop(settler);
                Err(NoMemory)
            }
        }
    }

    /// The turns that are left of the run.
    pub fn turns(&self) -> RunTurns
        ensures turns { result ≡ self.now.turns }
    {
        self.turns
    }

    /// Looks for times that satisfy the network: by few cases, then by clauses, and by as many cases as the budget allows if clauses gave up. If it was
    /// found consistent, greatest separations can be found; if it was found inconsistent, the constraints that contradict each other. The answer is open
    /// only if a search by cases used the budget up; so it is not if the budget is no less than the number of cause choices. Times that clauses
    /// found count as none if they are so far apart that no search by cases could start from them.
    pub fn find(&mut self, alloc: Global, net: &Network) -> Result<Consistency, NoMemory>
        requires made { IsFor net.now self.old }
        ensures made { IsFor net.now self.new }
        ensures budget { self.new.budget ≡ self.old.budget }
        ensures turns { AreTurnsOf self.old.turns self.new.turns }
        ensures finding { IfOk result (IsConsistency net.now) }
        ensures ready { IfOk result (λ found. found ≡ Consistency.Consistent → IsReady net.now self.new) }
        ensures contradicted { IfOk result (λ found. found ≡ Consistency.Inconsistent → IsContradicted net.now self.new) }
        ensures open { IfOk result (λ found. found ≡ Consistency.Open → IsFindingOpen net.now self.old.budget) }
        ensures settles { IfOk result (λ found. cause_choices net.now.constraints ≤ self.old.budget → found ≡ Consistency.Open → ⊥) }
    {
        self.start = None;
        self.guess = None;
        let few = self.few_cases();
        match self.search_cases(net, few) {
            Consistency::Consistent => Ok(Consistency::Consistent),
            Consistency::Inconsistent => Ok(Consistency::Inconsistent),
            Consistency::Open => self.search_clauses(alloc, net, few),
        }
    }

    // How many cases a search closes before clauses are asked.
    fn few_cases(&self) -> u64
        requires some { 0 < self.now.budget }
        ensures some { 0 < result }
        ensures within { result ≤ self.now.budget }
    {
        self.budget.min(FIRST_CASES)
    }

    // Looks for times that satisfy the network by at most so many cases. If some do, they are known. If none do, the constraints are marked that the
    // proof names.
    fn search_cases(&mut self, net: &Network, cases: u64) -> Consistency
        requires made { IsFor net.now self.old }
        requires cases { 0 < cases }
        ensures made { IsFor net.now self.new }
        ensures budget { self.new.budget ≡ self.old.budget }
        ensures turns { self.new.turns ≡ self.old.turns }
        ensures finding { IsConsistency net.now result }
        ensures known { result ≡ Consistency.Consistent → IsSome self.new.work.known }
        ensures marks { result ≡ Consistency.Inconsistent → IsRefuting net.now self.new.marking }
        ensures guess { self.new.guess ≡ self.old.guess }
        ensures open { result ≡ Consistency.Open → IsFindingOpen net.now cases }
        ensures settles { cause_choices net.now.constraints ≤ cases → result ≡ Consistency.Open → ⊥ }
    {
        self.marking.begin();
        match find(&mut self.work, net, cases, &mut self.marking) {
            Ok(found) => found,
            Err(ScribeFailed) => unreachable!(),
        }
    }

    // Looks for times that satisfy the network by clauses, after few cases left it open.
    fn search_clauses(
        &mut self,
        alloc: Global,
        net: &Network,
        few: u64,
    ) -> Result<Consistency, NoMemory>
        requires made { IsFor net.now self.old }
        requires open { IsFindingOpen net.now few }
        requires below { cause_choices net.now.constraints ≤ few → ⊥ }
        requires guess { self.old.guess ≡ None }
        ensures made { IsFor net.now self.new }
        ensures budget { self.new.budget ≡ self.old.budget }
        ensures turns { AreTurnsOf self.old.turns self.new.turns }
        ensures finding { IfOk result (IsConsistency net.now) }
        ensures ready { IfOk result (λ found. found ≡ Consistency.Consistent → IsReady net.now self.new) }
        ensures contradicted { IfOk result (λ found. found ≡ Consistency.Inconsistent → IsContradicted net.now self.new) }
        ensures open { IfOk result (λ found. found ≡ Consistency.Open → IsFindingOpen net.now self.old.budget) }
        ensures settles { IfOk result (λ found. cause_choices net.now.constraints ≤ self.old.budget → found ≡ Consistency.Open → ⊥) }
    {
        match find_by_clauses(alloc, net, &self.settler, &mut self.turns)? {
            ClauseFinding::Start(times) => {
                self.start = Some(times);
                Ok(Consistency::Consistent)
            }
            ClauseFinding::Nothing(named) => {
                self.guess = Some(named);
                Ok(Consistency::Inconsistent)
            }
            ClauseFinding::Open => Ok(self.search_all_cases(net, few)),
        }
    }

    // Looks for times that satisfy the network by as many cases as the budget allows, after few cases left it open. If these are as many, it is left open
    // without a search.
    fn search_all_cases(&mut self, net: &Network, few: u64) -> Consistency
        requires made { IsFor net.now self.old }
        requires open { IsFindingOpen net.now few }
        requires below { cause_choices net.now.constraints ≤ few → ⊥ }
        ensures made { IsFor net.now self.new }
        ensures budget { self.new.budget ≡ self.old.budget }
        ensures turns { self.new.turns ≡ self.old.turns }
        ensures finding { IsConsistency net.now result }
        ensures known { result ≡ Consistency.Consistent → IsSome self.new.work.known }
        ensures marks { result ≡ Consistency.Inconsistent → IsRefuting net.now self.new.marking }
        ensures guess { self.new.guess ≡ self.old.guess }
        ensures open { result ≡ Consistency.Open → IsFindingOpen net.now self.old.budget }
        ensures settles { cause_choices net.now.constraints ≤ self.old.budget → result ≡ Consistency.Open → ⊥ }
    {
        if few == self.budget {
            Consistency::Open
        } else {
            self.search_cases(net, self.budget)
        }
    }

    /// A flag for each constraint of a network that was found inconsistent: whether it is in a set of constraints that contradict each other by
    /// themselves. Where clauses found it, as many cases as the budget allows are searched. Where a search by cases finds it, the set has just the
    /// constraints that its proof names. Otherwise it has the constraints that a proof by clauses names, if a search of these constraints alone finds no
    /// times, and else all constraints.
    pub fn contradiction(&mut self, alloc: Global, net: &Network) -> Result<Vec<bool>, NoMemory>
        requires contradicted { IsContradicted net.now self.old }
        ensures made { IsFor net.now self.new }
        ensures budget { self.new.budget ≡ self.old.budget }
        ensures turns { AreTurnsOf self.old.turns self.new.turns }
        ensures set { IfOk result (λ set. IsContradictionFound net.now self.old.budget set.items) }
    {
        match &self.guess {
            None => Ok(Vec::from_slice(alloc, self.marking.marks())?),
            Some(_) => self.name_by_cases(alloc, net),
        }
    }

    // Constraints that contradict each other by themselves, after clauses found that no times satisfy: those of a proof by cases where the budget allows one.
    fn name_by_cases(&mut self, alloc: Global, net: &Network) -> Result<Vec<bool>, NoMemory>
        requires made { IsFor net.now self.old }
        requires none { IsInconsistent net.now }
        requires guess { IsSomeAnd self.old.guess (λ guess. length guess.items ≡ length net.now.constraints) }
        ensures made { IsFor net.now self.new }
        ensures budget { self.new.budget ≡ self.old.budget }
        ensures turns { AreTurnsOf self.old.turns self.new.turns }
        ensures set { IfOk result (λ set. IsContradictionFound net.now self.old.budget set.items) }
    {
        match self.search_cases(net, self.budget) {
            Consistency::Consistent => unreachable!(),
            Consistency::Inconsistent => self.marked(alloc, net),
            Consistency::Open => self.guessed(alloc, net),
        }
    }

    // The constraints that a proof by cases names.
    fn marked(&self, alloc: Global, net: &Network) -> Result<Vec<bool>, NoMemory>
        requires marks { IsRefuting net.now self.now.marking }
        requires count { length self.now.marking ≡ length net.now.constraints }
        ensures set { IfOk result (λ set. IsContradictionFound net.now self.now.budget set.items) }
    {
        Ok(Vec::from_slice(alloc, self.marking.marks())?)
    }

    // The constraints of the guess, or all, after a search by cases left the finding open.
    fn guessed(&mut self, alloc: Global, net: &Network) -> Result<Vec<bool>, NoMemory>
        requires made { IsFor net.now self.old }
        requires none { IsInconsistent net.now }
        requires guess { IsSomeAnd self.old.guess (λ guess. length guess.items ≡ length net.now.constraints) }
        requires open { IsFindingOpen net.now self.old.budget }
        ensures made { IsFor net.now self.new }
        ensures budget { self.new.budget ≡ self.old.budget }
        ensures turns { AreTurnsOf self.old.turns self.new.turns }
        ensures set { IfOk result (λ set. IsContradictionFound net.now self.old.budget set.items) }
    {
        match &self.guess {
            Some(guess) => confirmed(alloc, net, guess, &mut self.turns),
            None => unreachable!(),
        }
    }

    /// Finds the greatest separation of a pair of events of a network that was found consistent: by few cases, then by clauses, and by as many cases as
    /// the budget allows if clauses gave up. The answer is open only if a search by cases used the budget up; so it is not if the budget is no
    /// less than the number of cause choices.
    pub fn greatest(
        &mut self,
        alloc: Global,
        net: &Network,
        from: EventId,
        to: EventId,
    ) -> Result<Greatest, NoMemory>
        requires ready { IsReady net.now self.old }
        requires from { from.0 < net.now.events }
        requires to { to.0 < net.now.events }
        ensures ready { IsReady net.now self.new }
        ensures budget { self.new.budget ≡ self.old.budget }
        ensures turns { AreTurnsOf self.old.turns self.new.turns }
        ensures found { IfOk result (IsGreatestFound net.now from to) }
        ensures open { IfOk result (IsOpenShown net.now self.old.budget from to) }
        ensures settles { IfOk result (λ found. cause_choices net.now.constraints ≤ self.old.budget → is_open found ≡ false) }
    {
        let few = self.few_cases();
        let first = self.greatest_by_cases(alloc, net, from, to, few)?;
        if first.is_open() {
            self.greatest_past_few(alloc, net, from, to, few, first)
        } else {
            Ok(first)
        }
    }

    // Finds the greatest separation of a pair by at most so many cases: from the known times, and else from times that clauses found.
    fn greatest_by_cases(
        &mut self,
        alloc: Global,
        net: &Network,
        from: EventId,
        to: EventId,
        cases: u64,
    ) -> Result<Greatest, NoMemory>
        requires ready { IsReady net.now self.old }
        requires from { from.0 < net.now.events }
        requires to { to.0 < net.now.events }
        requires cases { 0 < cases }
        ensures ready { IsReady net.now self.new }
        ensures budget { self.new.budget ≡ self.old.budget }
        ensures turns { self.new.turns ≡ self.old.turns }
        ensures found { IfOk result (IsFoundBy net.now cases from to) }
    {
        if self.work.has_known() {
            greatest_from_known(alloc, &mut self.work, net, from, to, cases)
        } else {
            self.from_start(alloc, net, from, to, cases)
        }
    }

    // Finds the greatest separation of a pair by at most so many cases, from times that clauses found.
    fn from_start(
        &mut self,
        alloc: Global,
        net: &Network,
        from: EventId,
        to: EventId,
        cases: u64,
    ) -> Result<Greatest, NoMemory>
        requires ready { IsReady net.now self.old }
        requires start { IsSome self.old.start }
        requires from { from.0 < net.now.events }
        requires to { to.0 < net.now.events }
        requires cases { 0 < cases }
        ensures ready { IsReady net.now self.new }
        ensures budget { self.new.budget ≡ self.old.budget }
        ensures turns { self.new.turns ≡ self.old.turns }
        ensures found { IfOk result (IsFoundBy net.now cases from to) }
    {
        match &self.start {
            Some(times) => {
                greatest_from_start(alloc, &mut self.work, net, from, to, times, cases)
            }
            None => unreachable!(),
        }
    }

    // Finds the greatest separation of a pair by clauses, after few cases found the first answer. Where clauses give up, it searches by as many cases as
    // the budget allows.
    fn greatest_past_few(
        &mut self,
        alloc: Global,
        net: &Network,
        from: EventId,
        to: EventId,
        few: u64,
        first: Greatest,
    ) -> Result<Greatest, NoMemory>
        requires ready { IsReady net.now self.old }
        requires from { from.0 < net.now.events }
        requires to { to.0 < net.now.events }
        requires first { IsFoundBy net.now few from to first }
        ensures ready { IsReady net.now self.new }
        ensures budget { self.new.budget ≡ self.old.budget }
        ensures turns { AreTurnsOf self.old.turns self.new.turns }
        ensures found { IfOk result (IsFoundBy net.now self.old.budget from to) }
    {
        match greatest_by_clauses(alloc, net, &self.settler, from, to, &mut self.turns)? {
            Some(settled) => Ok(settled),
            None => self.greatest_at_last(alloc, net, from, to, few, first),
        }
    }

    // Finds the greatest separation of a pair by as many cases as the budget allows. If few cases are as many, their answer is this one.
    fn greatest_at_last(
        &mut self,
        alloc: Global,
        net: &Network,
        from: EventId,
        to: EventId,
        few: u64,
        first: Greatest,
    ) -> Result<Greatest, NoMemory>
        requires ready { IsReady net.now self.old }
        requires from { from.0 < net.now.events }
        requires to { to.0 < net.now.events }
        requires first { IsFoundBy net.now few from to first }
        ensures ready { IsReady net.now self.new }
        ensures budget { self.new.budget ≡ self.old.budget }
        ensures turns { self.new.turns ≡ self.old.turns }
        ensures found { IfOk result (IsFoundBy net.now self.old.budget from to) }
    {
        if few == self.budget {
            return Ok(first);
        }
        drop(first);
        self.greatest_by_cases(alloc, net, from, to, self.budget)
    }

    /// The greatest separation of a pair of events over the times that meet the always-edges alone, in picoseconds: a limit of its greatest
    /// separation. It is `None` if there is no greatest one. Nothing is searched.
    pub fn limit(&mut self, net: &Network, from: EventId, to: EventId) -> Option<i64>
        requires made { IsFor net.now self.old }
        requires always { (times : List ℤ) × MeetsAlways times net.now }
        requires from { from.0 < net.now.events }
        requires to { to.0 < net.now.events }
        ensures made { IsFor net.now self.new }
        ensures budget { self.new.budget ≡ self.old.budget }
        ensures turns { self.new.turns ≡ self.old.turns }
        ensures root { IsRootBound net.now from to result }
        ensures within { IfSome result IsTime }
    {
        match root_bound(&mut self.work, net, from, to) {
            Root::Bound(limit) => limit,
            Root::NoTimes => unreachable!(),
        }
    }
}
