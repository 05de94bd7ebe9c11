//! The checker of proofs by clauses.

ghost use Rattle.std.specs.Prelude.{◌≡◌, ◌↔◌, ◌<◌, ◌≤ℤ◌, IsTrue, IsFalse, IfOk, OnErr, length};
ghost use Rattle.event_graph.specs.Network.{IsNet};
ghost use Rattle.falling.specs.DerivationEnds.{AreLimits};
ghost use Rattle.edge_clauses.specs.Checking.{IsChecking, IsNoLine, TakesLine};
ghost use Rattle.edge_clauses.specs.Lines.{Assume, Close, Fall, IsOver, Know, Loop, Rise, claiming, starting};
ghost use Rattle.edge_clauses.specs.Proofs.{line_of};

use crate::basis::WalkStep;
use crate::changing::{KnownBy, fall_in, know_in, rise_in};
use crate::claim::Claim;
use crate::edge_list::EdgeList;
use crate::frames::Frames;
use crate::judge::has_ended;
use crate::line::{EventBound, StoredLine};
use crate::terms::Terms;
use crate::walk::is_loop;
use crate::weights::{are_addable, are_opposites_addable, list_of, refuting};
use event_graph::{Edge, Network};
use falling::{Limits, limits_of};
use itv_base::{EventId, NoMemory};
use std::alloc::Global;
use std::marker::Model;

/// Checks the lines of a proof by clauses, one after another.
///
/// A checker is made for a network and a goal. Every later call needs the same network. A line that is taken changes a bound, adds a known edge, keeps a
/// clause, or opens or closes a block. The lines are a proof once [`ClauseChecker::is_over`] returns true. A refused line changes nothing, and neither does
/// a line for which memory runs out. The checker allocates memory for the clauses line by line.
#[derive(Drop)]
pub struct ClauseChecker {
    terms: Terms,
    frames: Frames,
    kept: Vec<EdgeList>,
    room: Vec<Edge>,
}

impl Model for ClauseChecker {
    ghost use Rattle.edge_clauses.specs.Checking.{ClauseCheckerView};

    ghost Value = { ClauseCheckerView };

    ghost use Rattle.edge_clauses.specs.Step.Standing.{check_of};

    ghost view = { λ c. check_of c.terms c.frames c.kept.items };
}

impl ClauseChecker {
    /// A checker of a goal over one network, at the start. Both events are in the network, and the claim is in picoseconds.
    pub fn start(
        alloc: Global,
        net: &Network,
        from: EventId,
        to: EventId,
        claim: Claim,
    ) -> Result<ClauseChecker, NoMemory>
        requires from { from.0 < net.now.events }
        requires to { to.0 < net.now.events }
        ensures limits { IfOk result (λ checker. AreLimits net.now checker.limits) }
        ensures goal { IfOk result (λ checker. checker.goal ≡ record { from = from; to = to; claim = claim.value }) }
        ensures start { IfOk result (λ checker. checker.state ≡ starting net.now from) }
        ensures checking { IfOk result (IsChecking net.now) }
    {
        let terms = Terms {
            limits: limits_of(net),
            from,
            to,
            claim: claim.value,
        };
        let frames = Frames::new(alloc, net, terms)?;
        Ok(ClauseChecker {
            terms,
            frames,
            kept: Vec::new(alloc),
            room: Vec::new(alloc),
        })
    }

    /// Takes a line if a proof allows it, and returns whether it does. A line that is refused leads to no state. The checker is unchanged then, and also
    /// if memory runs out.
    pub fn take(
        &mut self,
        alloc: Global,
        net: &Network,
        line: &StoredLine,
    ) -> Result<bool, NoMemory>
        requires checking { IsChecking net.now self.old }
        ensures taken { IfOk result (λ taken. IsTrue taken → TakesLine net.now self.old (line_of line.now) self.new) }
        ensures refused { IfOk result (λ taken. IsFalse taken → IsNoLine net.now self.old (line_of line.now)) }
        ensures unchanged { IfOk result (λ taken. IsFalse taken → self.new ≡ self.old) }
        ensures kept { OnErr result (self.new ≡ self.old) }
        ensures checking { IsChecking net.now self.new }
    {
        match line {
            StoredLine::Fall(bound) => self.fall(net, *bound),
            StoredLine::Rise(bound) => self.rise(net, *bound),
            StoredLine::Know(edge, basis) => self.know(
                net,
                KnownBy {
                    edge: *edge,
                    basis: *basis,
                },
            ),
            StoredLine::Loop(event, steps, shown) => {
                self.keep_loop(alloc, net, *event, steps, shown)
            }
            StoredLine::Assume(edges) => self.assume(alloc, net, edges),
            StoredLine::Close => self.close(alloc, net),
        }
    }

    // Lets the upper bound of an event fall, if it may.
    fn fall(&mut self, net: &Network, bound: EventBound) -> Result<bool, NoMemory>
        requires checking { IsChecking net.now self.old }
        ensures taken { IfOk result (λ taken. IsTrue taken → TakesLine net.now self.old (Fall bound.event bound.value bound.basis) self.new) }
        ensures refused { IfOk result (λ taken. IsFalse taken → IsNoLine net.now self.old (Fall bound.event bound.value bound.basis)) }
        ensures unchanged { IfOk result (λ taken. IsFalse taken → self.new ≡ self.old) }
        ensures kept { OnErr result (self.new ≡ self.old) }
    {
        fall_in(
            net,
            &self.kept,
            &mut self.frames,
            self.terms,
            bound,
            &mut self.room,
        )
    }

    // Lets the lower bound of an event rise, if it may.
    fn rise(&mut self, net: &Network, bound: EventBound) -> Result<bool, NoMemory>
        requires checking { IsChecking net.now self.old }
        ensures taken { IfOk result (λ taken. IsTrue taken → TakesLine net.now self.old (Rise bound.event bound.value bound.basis) self.new) }
        ensures refused { IfOk result (λ taken. IsFalse taken → IsNoLine net.now self.old (Rise bound.event bound.value bound.basis)) }
        ensures unchanged { IfOk result (λ taken. IsFalse taken → self.new ≡ self.old) }
        ensures kept { OnErr result (self.new ≡ self.old) }
    {
        rise_in(
            net,
            &self.kept,
            &mut self.frames,
            self.terms,
            bound,
            &mut self.room,
        )
    }

    // Makes an edge known, if it may be known.
    fn know(&mut self, net: &Network, known: KnownBy) -> Result<bool, NoMemory>
        requires checking { IsChecking net.now self.old }
        ensures taken { IfOk result (λ taken. IsTrue taken → TakesLine net.now self.old (Know known.edge known.basis) self.new) }
        ensures refused { IfOk result (λ taken. IsFalse taken → IsNoLine net.now self.old (Know known.edge known.basis)) }
        ensures unchanged { IfOk result (λ taken. IsFalse taken → self.new ≡ self.old) }
        ensures kept { OnErr result (self.new ≡ self.old) }
    {
        know_in(
            net,
            &self.kept,
            &mut self.frames,
            self.terms,
            known,
            &mut self.room,
        )
    }

    // Keeps a clause, if steps back from an event are a loop that shows it.
    fn keep_loop(
        &mut self,
        alloc: Global,
        net: &Network,
        event: EventId,
        steps: &[WalkStep],
        shown: &[Edge],
    ) -> Result<bool, NoMemory>
        requires checking { IsChecking net.now self.old }
        ensures taken { IfOk result (λ taken. IsTrue taken → TakesLine net.now self.old (Loop event steps.now shown.now) self.new) }
        ensures refused { IfOk result (λ taken. IsFalse taken → IsNoLine net.now self.old (Loop event steps.now shown.now)) }
        ensures unchanged { IfOk result (λ taken. IsFalse taken → self.new ≡ self.old) }
        ensures kept { OnErr result (self.new ≡ self.old) }
    {
        if !is_loop(net, &self.kept, event, steps, shown, &mut self.room)? {
            return Ok(false);
        }
        self.kept.push(list_of(alloc, shown)?)?;
        Ok(true)
    }

    // Opens a block that assumes edges, in place of an open block, if their weights and those of their opposites can be added to others.
    fn assume(&mut self, alloc: Global, net: &Network, edges: &[Edge]) -> Result<bool, NoMemory>
        requires checking { IsChecking net.now self.old }
        ensures taken { IfOk result (λ taken. IsTrue taken → TakesLine net.now self.old (Assume edges.now) self.new) }
        ensures refused { IfOk result (λ taken. IsFalse taken → IsNoLine net.now self.old (Assume edges.now)) }
        ensures unchanged { IfOk result (λ taken. IsFalse taken → self.new ≡ self.old) }
        ensures kept { OnErr result (self.new ≡ self.old) }
    {
        if !are_addable(edges) {
            return Ok(false);
        }
        if !are_opposites_addable(edges) {
            return Ok(false);
        }
        self.frames.open(alloc, edges)?;
        Ok(true)
    }

    // Closes the open block and keeps the clause that its edges are not all met, if there is one and no times are left within its bounds.
    fn close(&mut self, alloc: Global, net: &Network) -> Result<bool, NoMemory>
        requires checking { IsChecking net.now self.old }
        ensures taken { IfOk result (λ taken. IsTrue taken → TakesLine net.now self.old Close self.new) }
        ensures refused { IfOk result (λ taken. IsFalse taken → IsNoLine net.now self.old Close) }
        ensures unchanged { IfOk result (λ taken. IsFalse taken → self.new ≡ self.old) }
        ensures kept { OnErr result (self.new ≡ self.old) }
    {
        if !has_ended(&self.frames, self.terms) {
            return Ok(false);
        }
        let clause = match &self.frames.assumed {
            Some(assumed) => refuting(alloc, &assumed.edges)?,
            None => return Ok(false),
        };
        self.kept.push(clause)?;
        self.frames.close();
        Ok(true)
    }

    /// Raises the claim of the goal.
    pub fn raise(&mut self, claim: Claim)
        requires more { self.old.goal.claim ≤ℤ claim.value }
        ensures goal { self.new.goal ≡ claiming self.old.goal claim.value }
        ensures limits { self.new.limits ≡ self.old.limits }
        ensures state { self.new.state ≡ self.old.state }
    {
        self.terms.claim = claim.value;
    }

    /// The event from which the goal measures.
    pub fn from(&self) -> EventId
        ensures from { result ≡ self.now.goal.from }
    {
        self.terms.from
    }

    /// The event to which the goal measures.
    pub fn to(&self) -> EventId
        ensures to { result ≡ self.now.goal.to }
    {
        self.terms.to
    }

    /// The claim of the goal.
    pub fn claim(&self) -> Claim
        ensures claim { result.value ≡ self.now.goal.claim }
    {
        Claim {
            value: self.terms.claim,
        }
    }

    /// The limits of the network.
    pub fn limits(&self) -> Limits
        ensures limits { result ≡ self.now.limits }
    {
        self.terms.limits
    }

    /// How many clauses were kept. The next one gets this number.
    pub fn kept_count(&self) -> usize
        ensures count { result ≡ length self.now.state.kept }
    {
        self.kept.len()
    }

    /// Whether the lines so far are a proof of the goal.
    pub fn is_over(&self) -> bool
        ensures over { IsTrue result ↔ IsOver self.now.goal self.now.state }
    {
        self.frames.assumed.is_none() && has_ended(&self.frames, self.terms)
    }
}
