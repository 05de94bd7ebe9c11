//! Reading the form of a label from the front of a text. Each function but the last two gives what it read and the text after it.

ghost use Rattle.std.specs.Prelude.{◌≡◌, option_map};
ghost use Rattle.std.specs.Option.{option_copied};
ghost use Rattle.label_grammar.specs.Label.{is_ask};
ghost use Rattle.label_grammar.specs.Reading.{kind_of, shift_of, tag_of, number_of, end_of, ends_of, unless_ask, note_of, label_of};
ghost use Rattle.label_grammar.specs.Step.Form.{number_value, ends_view, form_view};

use crate::form::{EndPair, Form, Number};
use crate::label::Kind;
use itv_base::{MAX_SHIFT, is_name, is_numeral, split_digits, split_name, strip, value_up_to};

const KINDS: [Kind; 5] = [Kind::Lin, Kind::Late, Kind::Early, Kind::Req, Kind::Ask];

/// `@` and the word of a kind.
#[tactic(auto, unfolding(crate::specs::Reading::kind_of))]
pub fn read_kind(text: &str) -> Option<(Kind, &str)>
    ensures { option_map (λ x. (x.0, x.1.now)) result ≡ kind_of text.now }
{
    for kind in KINDS {
        if let Some(rest) = strip(text, kind.word()) {
            return Some((kind, rest));
        }
    }
    None
}

/// `+` and a number from 1 to `MAX_SHIFT`, or nothing, which is a shift of 0.
#[tactic(auto, unfolding(crate::specs::Reading::shift_of))]
pub fn read_shift(text: &str) -> Option<(u32, &str)>
    ensures { option_map (λ x. (x.0, x.1.now)) result ≡ shift_of text.now }
{
    let Some(rest) = strip(text, "+") else {
        return Some((0, text));
    };
    let (digits, rest) = split_digits(rest);
    if !is_numeral(digits) {
        return None;
    }
    let shift = value_up_to(digits, u64::from(MAX_SHIFT))?;
    (shift != 0).then_some((shift as u32, rest))
}

/// `:` and a tag, or nothing.
#[tactic(auto, unfolding(crate::specs::Reading::tag_of))]
pub fn read_tag(text: &str) -> Option<(Option<&str>, &str)>
    ensures { option_map (λ x. (option_copied x.0, x.1.now)) result ≡ tag_of text.now }
{
    let Some(rest) = strip(text, ":") else {
        return Some((None, text));
    };
    let (tag, rest) = split_name(rest);
    is_name(tag).then_some((Some(tag), rest))
}

// The digits of a number after its sign. There is no `-0`.
fn read_number(is_negative: bool, text: &str) -> Option<(Option<Number<'_>>, &str)>
    ensures { option_map (λ x. (option_map number_value x.0, x.1.now)) result ≡ number_of is_negative text.now }
{
    let (digits, rest) = split_digits(text);
    if !is_numeral(digits) || is_negative && digits == "0" {
        return None;
    }
    Some((
        Some(Number {
            is_negative,
            digits,
        }),
        rest,
    ))
}

// `*` for an open end, or a number with or without a minus.
#[tactic(auto, unfolding(crate::specs::Reading::end_of))]
fn read_end(text: &str) -> Option<(Option<Number<'_>>, &str)>
    ensures { option_map (λ x. (option_map number_value x.0, x.1.now)) result ≡ end_of text.now }
{
    if let Some(rest) = strip(text, "*") {
        return Some((None, rest));
    }
    match strip(text, "-") {
        Some(rest) => read_number(true, rest),
        None => read_number(false, text),
    }
}

/// A space and `[low,high]`.
#[tactic(auto, unfolding(crate::specs::Reading::ends_of))]
pub fn read_ends(text: &str) -> Option<(EndPair<'_>, &str)>
    ensures { option_map (λ x. (ends_view x.0, x.1.now)) result ≡ ends_of text.now }
{
    let rest = strip(text, " [")?;
    let (low, rest) = read_end(rest)?;
    let rest = strip(rest, ",")?;
    let (high, rest) = read_end(rest)?;
    let rest = strip(rest, "]")?;
    Some((EndPair { low, high }, rest))
}

// The ends of a label of a kind. An ask has none: what follows it is a note.
#[tactic(auto, unfolding(crate::specs::Reading::unless_ask))]
fn read_unless_ask(kind: Kind, text: &str) -> Option<(Option<EndPair<'_>>, &str)>
    ensures { option_map (λ x. (option_map ends_view x.0, x.1.now)) result ≡ unless_ask ends_of (is_ask kind) text.now }
{
    if kind == Kind::Ask {
        return Some((None, text));
    }
    let (ends, rest) = read_ends(text)?;
    Some((Some(ends), rest))
}

/// A space and the note, or nothing.
#[tactic(auto, unfolding(crate::specs::Reading::note_of))]
pub fn read_note(text: &str) -> Option<Option<&str>>
    ensures { option_map (λ x. option_copied x) result ≡ note_of text.now }
{
    if text.is_empty() {
        return Some(None);
    }
    Some(Some(strip(text, " ")?))
}

/// The form of the label that the whole text spells.
#[tactic(auto, unfolding(crate::specs::Reading::label_of))]
pub fn read_form(text: &str) -> Option<Form<'_, EndPair<'_>>>
    ensures { option_map (λ x. form_view ends_view x) result ≡ label_of ends_of text.now }
{
    let (kind, rest) = read_kind(text)?;
    let (shift, rest) = read_shift(rest)?;
    let (tag, rest) = read_tag(rest)?;
    let (written, rest) = read_unless_ask(kind, rest)?;
    let note = read_note(rest)?;
    Some(Form {
        kind,
        shift,
        tag,
        written,
        note,
    })
}
