//! Sessions of edits.

ghost use Rattle.std.specs.Prelude.{◌≡◌, ◌+◌, ◌<◌, ◌≤◌, ◌↔◌, All, IfErr, IfOk, IsTrue, OnErr, OnOk, length, map, option_map};
ghost use Rattle.std.specs.Option.{option_copied};
ghost use Rattle.event_graph.specs.Network.{IsNet};
ghost use Rattle.drawn_numbers.specs.Numbers.{IsCauseOf, with_ranges};
ghost use Rattle.branch.specs.Work.{IsMadeFor};
ghost use Rattle.requirements.specs.declared.consistency.Consistency.TheVariants as findings;
ghost use Rattle.whatif.specs.Session.{AttainsKnown, HasPlaces, IsEditFault, IsEdited, IsKeptOf, IsPairOf, IsRight, IsRightFinding, IsSessionFault, AreBoundsUpdated, KeptBound, answers_of, both_ways, bound_at};
ghost use Rattle.whatif.specs.Step.Bounds.{IsPairIn};
ghost use Rattle.whatif.specs.declared.change.Change.{Change};
ghost use Rattle.whatif.specs.declared.settling.TheConstants.{MAX_BOUNDS};

use crate::bound::{Kept, KeptBound};
use crate::change::Change;
use crate::copying::copied;
use crate::fault::{EditFault, SessionFault};
use crate::settling::settle_by;
use branch::Work;
use cert_checker::Checker;
use drawn_numbers::{CauseName, set_ranges};
use event_graph::{Network, Pair};
use itv_base::{NoMemory, Range};
use requirements::{Bound, Consistency};
use std::alloc::Global;
use std::marker::Model;

/// The most pairs that a session may have.
pub const MAX_PAIRS: usize = 64;

/// A network whose ranges are edited, and the bounds of pairs of its events. The bounds are kept from one edit to the
/// next. The session has its own copy of the network.
#[derive(Drop)]
pub struct Session {
    alloc: Global,
    net: Network,
    budget: u64,
    pairs: Vec<Pair>,
    found: Consistency,
    // Two bounds for each pair: its own, and the bound of the reversed pair.
    bounds: Vec<KeptBound>,
    checker: Checker,
}

impl Model for Session {
    ghost use Rattle.whatif.specs.Session.{IsSoundSession, SessionView};

    ghost Value = { SessionView };

    ghost view = { λ s. record { net = s.net; budget = s.budget; pairs = s.pairs.items; found = s.found; bounds = s.bounds.items } };

    ghost invariant = { λ s. IsSoundSession (record { net = s.net; budget = s.budget; pairs = s.pairs.items; found = s.found; bounds = s.bounds.items }) s.checker.room };
}

impl Session {
    /// A session of at most [`MAX_PAIRS`] pairs of events of a network. Each search closes at most `budget` cases. The
    /// session takes all the memory that it ever needs, except the edited network and the working memory for the
    /// searches of an edit.
    pub fn new(
        alloc: Global,
        net: &Network,
        pairs: &[Pair],
        budget: u64,
    ) -> Result<Session, SessionFault>
        requires within { All (IsPairOf net.now.events) pairs.now }
        requires budget { 0 < budget }
        ensures net { IfOk result (λ s. s.net ≡ net.now) }
        ensures budget { IfOk result (λ s. s.budget ≡ budget) }
        ensures pairs { IfOk result (λ s. s.pairs ≡ pairs.now) }
        ensures right { IfOk result IsRight }
        ensures least { IfOk result AttainsKnown }
        ensures few { OnOk result (length pairs.now ≤ MAX_PAIRS) }
        ensures fault { IfErr result (IsSessionFault (length pairs.now)) }
    {
        if MAX_PAIRS < pairs.len() {
            return Err(SessionFault::TooManyPairs(pairs.len() as u64));
        }
        let net = copied(alloc, net)?;
        let mut checker = Checker::new(alloc, &net)?;
        let mut bounds = bounds_for(alloc, pairs, net.events())?;
        let pairs = Vec::from_slice(alloc, pairs)?;
        let found = begin(alloc, &net, &mut checker, budget, &mut bounds)?;
        Ok(Session {
            alloc,
            net,
            budget,
            pairs,
            found,
            bounds,
            checker,
        })
    }

    /// Sets the range of each of these causes, keeps each bound that is still right, and searches the others anew.
    /// Returns `NoSuch` if and only if a cause is not there. After a refusal the session is unchanged.
    pub fn edit(&mut self, causes: &[CauseName], range: Range) -> Result<Change, EditFault>
        ensures edited { IfOk result (IsEdited self.old causes.now range self.new) }
        ensures there { OnOk result (All (IsCauseOf self.old.net) causes.now) }
        ensures right { IsRight self.new }
        ensures fault { IfErr result (IsEditFault self.old.net causes.now) }
        ensures unchanged { OnErr result (self.new ≡ self.old) }
    {
        let work = work_for(self.alloc, &mut self.net, causes, range)?;
        Ok(settle_by(
            &self.net,
            work,
            &mut self.checker,
            self.budget,
            &mut self.found,
            &mut self.bounds,
        ))
    }

    /// The network, with all edits so far.
    pub fn network(&self) -> &Network
        ensures { result.now ≡ self.now.net }
    {
        &self.net
    }

    /// Whether times satisfy the network, as far as the budget allows to know.
    pub fn finding(&self) -> Consistency
        ensures found { result ≡ self.now.found }
        ensures right { IsRight self.now }
    {
        self.found
    }

    /// The greatest separation of a pair, given its number from 0, or `None` if and only if the finding is not consistent.
    pub fn greatest_of(&self, pair: u32) -> Option<Bound>
        requires there { pair < length self.now.pairs }
        ensures { result ≡ option_map (λ (b : KeptBound). b.answer) (bound_at self.now.found self.now.bounds (pair + pair)) }
    {
        let bound = self.bound(2 * pair as usize)?;
        Some(bound.answer())
    }

    /// The greatest separation of the reversed pair, which is minus the least separation of the pair, or `None` if and
    /// only if the finding is not consistent.
    pub fn least_of(&self, pair: u32) -> Option<Bound>
        requires there { pair < length self.now.pairs }
        ensures { result ≡ option_map (λ (b : KeptBound). b.answer) (bound_at self.now.found self.now.bounds (pair + pair + 1)) }
    {
        let bound = self.bound(2 * pair as usize + 1)?;
        Some(bound.answer())
    }

    /// What the bound for the greatest separation of a pair keeps, with the same `None`.
    pub fn greatest_kept(&self, pair: u32) -> Option<Kept<'_>>
        requires there { pair < length self.now.pairs }
        ensures { IsKeptOf result (bound_at self.now.found self.now.bounds (pair + pair)) }
    {
        let bound = self.bound(2 * pair as usize)?;
        Some(bound.kept())
    }

    /// What the bound of the reversed pair keeps, with the same `None`.
    pub fn least_kept(&self, pair: u32) -> Option<Kept<'_>>
        requires there { pair < length self.now.pairs }
        ensures { IsKeptOf result (bound_at self.now.found self.now.bounds (pair + pair + 1)) }
    {
        let bound = self.bound(2 * pair as usize + 1)?;
        Some(bound.kept())
    }

    /// The answers of all bounds, two for each pair, or none if the finding is not consistent.
    pub fn answers(&self, alloc: Global) -> Result<Vec<Bound>, NoMemory>
        ensures { IfOk result (λ answers. answers.items ≡ answers_of self.now.found self.now.bounds) }
    {
        match self.found {
            Consistency::Consistent => answers_in(alloc, &self.bounds),
            Consistency::Inconsistent | Consistency::Open => Ok(Vec::new(alloc)),
        }
    }

    // The bound with a number, if the finding is consistent.
    fn bound(&self, number: usize) -> Option<&KeptBound>
        requires there { number < length self.now.pairs + length self.now.pairs }
        ensures { option_copied result ≡ bound_at self.now.found self.now.bounds number }
    {
        match self.found {
            Consistency::Consistent => self.bounds.get(number),
            Consistency::Inconsistent | Consistency::Open => None,
        }
    }
}

// The answer of each bound.
fn answers_in(alloc: Global, bounds: &[KeptBound]) -> Result<Vec<Bound>, NoMemory>
    ensures { IfOk result (λ answers. answers.items ≡ map (λ (b : KeptBound). b.answer) bounds.now) }
{
    let mut answers = Vec::new(alloc);
    for k in 0..bounds.len() {
        answers.push(bounds[k].answer())?;
    }
    Ok(answers)
}

// Room for the bounds of the pairs and of the reversed pairs. Nothing is searched yet.
fn bounds_for(alloc: Global, pairs: &[Pair], events: u32) -> Result<Vec<KeptBound>, NoMemory>
    ensures pairs { IfOk result (λ bounds. map (λ (b : KeptBound). b.pair) bounds.items ≡ both_ways pairs.now) }
    ensures places { IfOk result (λ bounds. All (HasPlaces events) bounds.items) }
{
    let mut bounds = Vec::new(alloc);
    for k in 0..pairs.len() {
        let Pair { from, to } = pairs[k];
        bounds.push(KeptBound::new(alloc, pairs[k], events)?)?;
        bounds.push(KeptBound::new(alloc, Pair { from: to, to: from }, events)?)?;
    }
    Ok(bounds)
}

// The first finding and the first search of each bound.
fn begin(
    alloc: Global,
    net: &Network,
    checker: &mut Checker,
    budget: u64,
    bounds: &mut [KeptBound],
) -> Result<Consistency, NoMemory>
    requires room { checker.old.room ≡ length net.now.constraints }
    requires budget { 0 < budget }
    requires count { length bounds.old ≤ MAX_BOUNDS }
    requires pairs { All (IsPairIn net.now.events) bounds.old }
    requires places { All (HasPlaces net.now.events) bounds.old }
    ensures net { OnOk result (IsNet net.now) }
    ensures finding { IfOk result (IsRightFinding net.now budget) }
    ensures settled { IfOk result (λ found. (change : Change) × AreBoundsUpdated net.now budget findings.Open found bounds.old bounds.new change) }
    ensures places { OnOk result (All (HasPlaces net.now.events) bounds.new) }
    ensures room { checker.new.room ≡ checker.old.room }
{
    let work = Work::new(alloc, net)?;
    let mut found = Consistency::Open;
    settle_by(net, work, checker, budget, &mut found, bounds);
    Ok(found)
}

// Sets ranges, and takes the memory for searches of the network with these ranges. If memory runs out, the network is
// as it was.
fn work_for(
    alloc: Global,
    net: &mut Network,
    causes: &[CauseName],
    range: Range,
) -> Result<Work, EditFault>
    ensures made { IfOk result (IsMadeFor net.new) }
    ensures set { OnOk result (net.new ≡ with_ranges net.old causes.now range) }
    ensures there { OnOk result (All (IsCauseOf net.old) causes.now) }
    ensures fault { IfErr result (IsEditFault net.old causes.now) }
    ensures unchanged { OnErr result (net.new ≡ net.old) }
{
    if !are_there(net, causes) {
        return Err(EditFault::NoSuch);
    }
    let mut edited = copied(alloc, net)?;
    set_ranges(&mut edited, causes, range);
    let work = Work::new(alloc, &edited)?;
    *net = edited;
    Ok(work)
}

// Whether all these causes are there.
fn are_there(net: &Network, causes: &[CauseName]) -> bool
    ensures { IsTrue result ↔ All (IsCauseOf net.now) causes.now }
{
    causes.iter().all(|name| is_there(net, *name))
}

// Whether a cause is there.
fn is_there(net: &Network, name: CauseName) -> bool
    ensures { IsTrue result ↔ IsCauseOf net.now name }
{
    net.has_cause(name.constraint, name.cause)
}
