//! Each stored line has a text: the types of its numbers say so. The functions only read the numbers.

ghost use Rattle.std.specs.Prelude.{◌<◌, ◌^◌, All};
ghost use Rattle.certificate.specs.Text.{IsEdgeName};
ghost use Rattle.line_words.specs.Numbers.{IsLong};
ghost use Rattle.edge_clauses.specs.Proofs.{line_of, lines_of};
ghost use Rattle.clause_texts.specs.Text.{IsBasisName, IsClauseLine, IsDifference, IsStepName};

use edge_clauses::{Basis, EventBound, StoredLine, WalkStep};
use event_graph::Edge;
use itv_base::{EdgeName, EventId};

/// Each of the lines has a text.
pub fn have_texts(lines: &[StoredLine])
    ensures lines { All IsClauseLine (lines_of lines.now) }
{
    for line in lines {
        has_text(line);
    }
}

fn has_text(line: &StoredLine)
    ensures { IsClauseLine (line_of line.now) }
{
    match line {
        StoredLine::Fall(bound) => bound_fits(*bound),
        StoredLine::Rise(bound) => bound_fits(*bound),
        StoredLine::Know(edge, basis) => {
            difference_fits(*edge);
            basis_fits(*basis)
        }
        StoredLine::Loop(event, steps, clause) => {
            event_fits(*event);
            steps_fit(steps);
            differences_fit(clause)
        }
        StoredLine::Assume(edges) => differences_fit(edges),
        StoredLine::Close => {}
    }
}

fn bound_fits(bound: EventBound)
    ensures event { bound.event.0 < 2 ^ 32 }
    ensures value { IsLong bound.value }
    ensures basis { IsBasisName bound.basis }
{
    event_fits(bound.event);
    basis_fits(bound.basis)
}

fn event_fits(event: EventId)
    ensures { event.0 < 2 ^ 32 }
{}

fn steps_fit(steps: &[WalkStep])
    ensures { All IsStepName steps.now }
{
    for step in steps {
        step_fits(*step);
    }
}

fn step_fits(step: WalkStep)
    ensures { IsStepName step }
{
    basis_fits(step.basis)
}

fn basis_fits(basis: Basis)
    ensures { IsBasisName basis }
{
    match basis {
        Basis::ByEdge(edge) => name_fits(edge),
        Basis::Either(edge) => difference_fits(edge),
        Basis::ByChoice(constraint) => number_fits(constraint),
        Basis::ByKept(clause) => number_fits(clause),
    }
}

fn name_fits(edge: EdgeName)
    ensures { IsEdgeName edge }
{}

fn number_fits(number: u32)
    ensures { number < 2 ^ 32 }
{}

fn differences_fit(edges: &[Edge])
    ensures { All IsDifference edges.now }
{
    for edge in edges {
        difference_fits(*edge);
    }
}

fn difference_fits(edge: Edge)
    ensures { IsDifference edge }
{}
