//! Edges that are drawn as skews.

ghost use Rattle.std.specs.Prelude.{◌≡◌, ◌==◌, false, slice_get};
ghost use Rattle.std.specs.List.{before_first, list_any};
ghost use Rattle.std.specs.Option.{option_map_or};
ghost use Rattle.itv_base.specs.Cuts.{is_space};
ghost use Rattle.lint.specs.Rules.{drawn_by, draws_skew, is_cap, is_skew};

use crate::both::same_mark;
use crate::rule::{drawn_by, from_mark, is_upper};
use itv_base::Texts;
use origin::Origin;
use sheet::Rule;

/// Whether a rule is linear, leads from another mark, holds its target from above, and is no skew. The edge of the rule has one of these texts.
pub fn is_cap(texts: &Texts, rule: &Rule) -> bool
    ensures { result ≡ is_cap texts.now rule.now }
{
    is_upper(rule)
        && !same_mark(from_mark(rule), Some(rule.target()))
        && !is_drawn_as_skew(texts, rule)
}

// Whether the first edge of a rule is a skew.
fn is_drawn_as_skew(texts: &Texts, rule: &Rule) -> bool
    ensures { result ≡ option_map_or (draws_skew texts.now) (drawn_by rule.now) false }
{
    match drawn_by(rule) {
        Some(origin) => draws_skew(texts, origin),
        None => false,
    }
}

/// Whether an edge or a wire with one of these texts is a skew.
pub fn draws_skew(texts: &Texts, origin: Origin) -> bool
    ensures { result ≡ draws_skew texts.now origin }
{
    match origin {
        Origin::Edge(n) | Origin::Wire(n) => is_skew_at(texts, n),
        Origin::Lane(_) | Origin::Pin { .. } => false,
    }
}

// Whether the text of a number is there and is the text of a skew.
fn is_skew_at(texts: &Texts, n: u64) -> bool
    ensures { result ≡ option_map_or is_skew (slice_get texts.now n) false }
{
    n < texts.len() && is_skew(texts.get(n).as_text())
}

// Whether the word before the first space has `<` and `>`.
fn is_skew(text: &str) -> bool
    ensures { result ≡ is_skew text.now }
{
    let word = shape_word(text).as_bytes();
    has_byte(b'<', word) && has_byte(b'>', word)
}

// The text before the first space.
fn shape_word(text: &str) -> &str
    ensures { result.now ≡ before_first is_space text.now }
{
    match text.split_once(' ') {
        Some((word, _)) => word,
        None => text,
    }
}

fn has_byte(wanted: u8, text: &[u8]) -> bool
    ensures { result ≡ list_any (λ byte. byte == wanted) text.now }
{
    text.iter().any(|byte| *byte == wanted)
}
