//! Reading the form of a label of version 2 from the front of a text.

ghost use Rattle.std.specs.Prelude.{◌≡◌, option_map};
ghost use Rattle.label_grammar.specs.Label.{is_ask};
ghost use Rattle.label_grammar.specs.Reading.{span_of, unless_ask, label_of};
ghost use Rattle.label_grammar.specs.Step.Form.{written_view, form_view};

use crate::form::{Form, WrittenSpan};
use crate::label::Kind;
use crate::parts::{read_ends, read_kind, read_note, read_shift, read_tag};
use itv_base::{is_name, split_name, strip};

// A space, `$` and the name of a parameter, or the two ends.
#[tactic(auto, unfolding(crate::specs::Reading::span_of))]
fn read_span(text: &str) -> Option<(WrittenSpan<'_>, &str)>
    ensures { option_map (λ x. (written_view x.0, x.1.now)) result ≡ span_of text.now }
{
    let Some(rest) = strip(text, " $") else {
        let (ends, rest) = read_ends(text)?;
        return Some((WrittenSpan::Fixed(ends), rest));
    };
    let (name, rest) = split_name(rest);
    is_name(name).then_some((WrittenSpan::Named(name), rest))
}

// The span of a label of a kind. An ask has none: what follows it is a note.
#[tactic(auto, unfolding(crate::specs::Reading::unless_ask))]
fn read_unless_ask(kind: Kind, text: &str) -> Option<(Option<WrittenSpan<'_>>, &str)>
    ensures { option_map (λ x. (option_map written_view x.0, x.1.now)) result ≡ unless_ask span_of (is_ask kind) text.now }
{
    if matches!(kind, Kind::Ask) {
        return Some((None, text));
    }
    let (span, rest) = read_span(text)?;
    Some((Some(span), rest))
}

/// The form of the label of version 2 that the whole text spells.
#[tactic(auto, unfolding(crate::specs::Reading::label_of))]
pub fn read_form2(text: &str) -> Option<Form<'_, WrittenSpan<'_>>>
    ensures { option_map (λ x. form_view written_view x) result ≡ label_of span_of text.now }
{
    let (kind, rest) = read_kind(text)?;
    let (shift, rest) = read_shift(rest)?;
    let (tag, rest) = read_tag(rest)?;
    let (written, rest) = read_unless_ask(kind, rest)?;
    let note = read_note(rest)?;
    Some(Form {
        kind,
        shift,
        tag,
        written,
        note,
    })
}
