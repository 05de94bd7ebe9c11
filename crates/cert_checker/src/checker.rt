//! The checker of proofs.

ghost use Rattle.std.specs.Prelude.{◌≡◌, ◌↔◌, ◌∷◌, [], IsTrue, IfOk, OnOk, OnErr, MatchBool, length, false};
ghost use Rattle.event_graph.specs.Lines.{lent_line};
ghost use Rattle.event_graph.specs.Network.{Net};
ghost use Rattle.event_graph.specs.Cases.{IsCase, first_of, siblings};
ghost use Rattle.cert_checker.specs.Checking.{IsProofCheckerFor, AnswersFault, goal_view, open_cases};
ghost use Rattle.cert_checker.specs.Faults.{behind_line, fault_of_line, fault_of_split};

use crate::check_fault::CheckFault;
use crate::goal::Goal;
use crate::walk::{check_loop, check_path};
use event_graph::{Choice, Decisions, Line, Network};
use itv_base::NoMemory;
use std::alloc::Global;
use std::marker::Model;

/// Checks the lines of proofs over one network, one after another.
///
/// It is made for a network, and every later call is given the same network. After [`Checker::begin`] the whole question
/// is open. Each line that [`Checker::take`] accepts splits the first open case or closes it. The lines are a proof once no
/// case is open. No call but `new` takes memory.
#[derive(Drop)]
pub struct Checker {
    goal: Goal,
    is_open: bool,
    // The choices of the first open case. They give the other open cases too.
    chosen: Decisions,
}

impl Model for Checker {
    ghost use Rattle.cert_checker.specs.Checking.{CheckerView, goal_view};

    ghost Value = { CheckerView };

    ghost view = { λ c. record {
      goal = goal_view c.goal;
      is_open = c.is_open;
      chosen = c.chosen.chosen;
      room = c.chosen.room;
    } };
}

impl Checker {
    /// A checker for a network, with room for every proof over it. No case is open yet.
    pub fn new(alloc: Global, net: &Network) -> Result<Checker, NoMemory>
        ensures room { IfOk result (λ c. c.room ≡ length net.now.constraints) }
        ensures closed { IfOk result (λ c. c.is_open ≡ false) }
    {
        Ok(Checker {
            goal: Goal::Nothing,
            is_open: false,
            chosen: Decisions::new(alloc, net.len())?,
        })
    }

    /// Begins a proof for a goal, whatever was taken before: one case is open, in which nothing is chosen.
    pub fn begin(&mut self, net: &Network, goal: Goal)
        requires room { self.old.room ≡ length net.now.constraints }
        ensures goal { self.new.goal ≡ goal_view goal }
        ensures open { open_cases net.now self.new ≡ [] ∷ [] }
        ensures stands { IsProofCheckerFor net.now self.new }
    {
        self.goal = goal;
        self.is_open = true;
        self.chosen.clear();
    }

    /// Takes the next line of the proof that was begun, or returns its first fault and changes nothing.
    pub fn take(&mut self, net: &Network, line: &Line<'_>) -> Result<(), CheckFault>
        requires stands { IsProofCheckerFor net.now self.old }
        ensures fault { AnswersFault result
            (fault_of_line net.now self.old.goal (open_cases net.now self.old) (lent_line line.now)) }
        ensures taken { OnOk result (open_cases net.now self.new
            ≡ behind_line net.now (open_cases net.now self.old) (lent_line line.now)) }
        ensures goal { self.new.goal ≡ self.old.goal }
        ensures stands { IsProofCheckerFor net.now self.new }
        ensures unchanged { OnErr result (self.new ≡ self.old) }
    {
        if !self.is_open {
            return Err(CheckFault::AfterEnd);
        }
        match line {
            Line::Split(constraint) => split(net, &mut self.chosen, *constraint)?,
            Line::Path(edges) => {
                check_path(net, &self.chosen, self.goal, edges)?;
                self.is_open = next_case(net, &mut self.chosen);
            }
            Line::Loop(edges) => {
                check_loop(net, &self.chosen, edges)?;
                self.is_open = next_case(net, &mut self.chosen);
            }
        }
        Ok(())
    }

    /// Whether no case is open: the lines that were taken are a whole proof.
    pub fn is_done(&self) -> bool
        ensures done { (net : Net) → (IsTrue result ↔ (open_cases net self.now ≡ [])) }
    {
        !self.is_open
    }
}

// Splits a case by the causes of a constraint, and enters the case of the first cause.
fn split(net: &Network, chosen: &mut Decisions, constraint: u32) -> Result<(), CheckFault>
    requires room { chosen.old.room ≡ length net.now.constraints }
    requires case { IsCase net.now chosen.old.chosen }
    ensures fault { AnswersFault result (fault_of_split net.now chosen.old.chosen constraint) }
    ensures chosen { OnOk result
        (chosen.new ≡ record chosen.old { chosen = first_of constraint chosen.old.chosen }) }
    ensures case { IsCase net.now chosen.new.chosen }
    ensures unchanged { OnErr result (chosen.new ≡ chosen.old) }
{
    if net.len() <= constraint || net.cause_count(constraint) == 0 {
        return Err(CheckFault::NoSuchConstraint);
    }
    if chosen.cause_of(constraint).is_some() {
        return Err(CheckFault::AlreadySplit);
    }
    chosen.push(Choice {
        constraint,
        cause: 0,
    });
    Ok(())
}

// Continues from a closed case to the next open case. Returns whether there is one.
fn next_case(net: &Network, chosen: &mut Decisions) -> bool
    requires room { chosen.old.room ≡ length net.now.constraints }
    requires case { IsCase net.now chosen.old.chosen }
    ensures case { IsCase net.now chosen.new.chosen }
    ensures room { chosen.new.room ≡ chosen.old.room }
    ensures next { MatchBool result
        (siblings net.now chosen.old.chosen ≡ chosen.new.chosen ∷ siblings net.now chosen.new.chosen)
        (siblings net.now chosen.old.chosen ≡ []) }
{
    while let Some(choice) = chosen.pop() {
        let count = net.cause_count(choice.constraint);
        let next = choice.cause + 1;
        if next < count {
            chosen.push(Choice {
                constraint: choice.constraint,
                cause: next,
            });
            return true;
        }
    }
    false
}
