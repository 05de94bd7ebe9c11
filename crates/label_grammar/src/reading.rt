//! Reading a label.

ghost use Rattle.std.specs.Prelude.{◌≡◌, ◌↔◌, Some, IfOk, IsOkAnd, IsErrOf, option_map};
ghost use Rattle.itv_base.specs.Range.{Ends};
ghost use Rattle.label_grammar.specs.Label.{LooseLabel, label_view, version_1, IsProper, spelling};
ghost use Rattle.label_grammar.specs.Reading.{ends_of, label_of};
ghost use Rattle.label_grammar.specs.Step.Form.{number_value, ends_view, capped, judged_ends, judged_range};
ghost use Rattle.label_grammar.specs.Answer.{judged_label, LabelAgrees, IsUnspelled, SpellsWideEnd, SpellsReversedEnds};

use crate::form::{EndPair, Number};
use crate::label::{Label, LabelFault};
use crate::parts::read_form;
use itv_base::{END_LIMIT, Range, RangeFault, value_up_to};

// The number. A number beyond the limit of an end becomes the first number beyond the limit, with the same sign.
fn capped(number: Number<'_>) -> i64
    ensures { result ≡ capped (number_value number.entry) }
{
    let value = match value_up_to(number.digits, END_LIMIT as u64) {
        Some(value) => value as i64,
        None => END_LIMIT + 1,
    };
    if number.is_negative { -value } else { value }
}

/// The range that two ends make, in picoseconds.
pub fn range_of(ends: EndPair<'_>) -> Result<Range, LabelFault>
    ensures { result ≡ judged_ends (ends_view ends.entry) }
{
    match Range::new(ends.low.map(capped), ends.high.map(capped)) {
        Ok(range) => Ok(range),
        Err(RangeFault::TooWide) => Err(LabelFault::TooWide),
        Err(RangeFault::EmptyRange) => Err(LabelFault::EmptyRange),
    }
}

// The range that the two ends make, if there are ends.
fn range_between(ends: Option<EndPair<'_>>) -> Result<Option<Range>, LabelFault>
    ensures { result ≡ judged_range (option_map ends_view ends.entry) }
{
    match ends {
        None => Ok(None),
        Some(ends) => Ok(Some(range_of(ends)?)),
    }
}

// What `read_label` gives, according to the definitions of reading. The other clauses of `read_label` follow from this clause.
fn read_judged(text: &str) -> Result<Label<'_>, LabelFault>
    ensures { LabelAgrees label_view result (judged_label (λ ends. Some ends) (label_of ends_of text.now)) }
{
    let form = read_form(text).ok_or(LabelFault::BadLabel)?;
    let range = range_between(form.written)?;
    Ok(Label {
        kind: form.kind,
        shift: form.shift,
        tag: form.tag,
        range,
        note: form.note,
    })
}

/// Reads a label, as `@late+1:rd [500,700] tAA`: `@` and the kind, `+` and a shift of 1 to 64 cycles or nothing, `:` and a tag or nothing, for
/// every kind but `ask` a space and the two ends in picoseconds (`*` where open), and a space and a note or nothing. Numbers are decimal without
/// a zero in front. It reports the first of these faults: the text does not have this form, an end is too wide, the ends are the wrong way
/// round.
pub fn read_label<'a>(text: &'a str) -> Result<Label<'a>, LabelFault>
    // The label that is read is proper, and the text is its spelling: so its tag and its note are in the text.
    ensures ok { IfOk result (λ l. IsProper version_1 (label_view l) × (text.now ≡ spelling version_1 (label_view l))) }
    // A proper label that the text spells is read.
    ensures only { (l : LooseLabel Ends) → IsProper version_1 l → text.now ≡ spelling version_1 l
        → IsOkAnd result (λ found. label_view found ≡ l) }
    ensures bad { IsErrOf result LabelFault.BadLabel ↔ IsUnspelled version_1 text.now }
    ensures wide { IsErrOf result LabelFault.TooWide ↔ SpellsWideEnd version_1 text.now }
    ensures empty { IsErrOf result LabelFault.EmptyRange ↔ SpellsReversedEnds version_1 text.now }
    // The same according to the definitions of reading, for the definitions of crates above this one.
    ensures exact { LabelAgrees label_view result (judged_label (λ ends. Some ends) (label_of ends_of text.now)) }
{
    read_judged(text)
}
