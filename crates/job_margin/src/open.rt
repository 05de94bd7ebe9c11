//! Whether a search for a margin was left open.

ghost use Rattle.std.specs.Prelude.{◌≡◌};
ghost use Rattle.std.specs.List.{list_any};
ghost use Rattle.line_words.specs.Words.{Word};
ghost use Rattle.moves.specs.declared.margin.Margin.{Margin as Spared};
ghost use Rattle.job_margin.specs.Step.{is_end_spent, is_span_spent};
ghost use Rattle.job_margin.specs.Text.{are_left_open, is_left_open, margins_of};

use crate::number_found::NumberFound;
use moves::{Margin, SpanFound};

/// Whether a search for a margin of one of some numbers was left open.
pub fn are_left_open(found: &[NumberFound]) -> bool
    ensures spent { result ≡ are_left_open found.now }
{
    found.iter().any(|found| is_number_spent(found))
}

fn is_number_spent(found: &NumberFound) -> bool
    ensures { result ≡ list_any (λ (m : Word × Spared). is_left_open m.1) (margins_of found.now) }
{
    is_end_spent(found.ends.low) || is_end_spent(found.ends.high) || is_span_spent(found.span)
}

fn is_end_spent(margin: Option<Margin>) -> bool
    ensures { result ≡ is_end_spent margin }
{
    match margin {
        Some(margin) => is_left_open(margin),
        None => false,
    }
}

fn is_span_spent(span: Option<SpanFound>) -> bool
    ensures { result ≡ is_span_spent span }
{
    match span {
        Some(span) => is_left_open(span.down) || is_left_open(span.up),
        None => false,
    }
}

fn is_left_open(margin: Margin) -> bool
    ensures { result ≡ is_left_open margin }
{
    match margin {
        Margin::Spent => true,
        Margin::Free
        | Margin::Until { .. }
        | Margin::UntilContradiction { .. }
        | Margin::Never
        | Margin::Limit => false,
    }
}
