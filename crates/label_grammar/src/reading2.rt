//! Reading a label of version 2.

ghost use Rattle.std.specs.Prelude.{◌≡◌, ◌↔◌, Some, Ok, Err, IfOk, IsOkAnd, IsErrOf, MatchResult, option_map};
ghost use Rattle.label_grammar.specs.Label.{LooseLabel, Span as SpanSeen, fixed_ends, label2_view, span_view, version_2, IsProper, spelling};
ghost use Rattle.label_grammar.specs.Reading.{span_of, label_of};
ghost use Rattle.label_grammar.specs.Step.Form.{written_view, judged_span};
ghost use Rattle.label_grammar.specs.Answer.{judged_label, LabelAgrees, IsUnspelled, SpellsWideEnd, SpellsReversedEnds};

use crate::form::WrittenSpan;
use crate::label::LabelFault;
use crate::label2::{Label2, Span};
use crate::reading::range_of;
use crate::span::read_form2;

// The span that is written, with its ends made a range.
fn made_span<'a>(written: WrittenSpan<'a>) -> Result<Span<'a>, LabelFault>
    ensures { MatchResult result
        (λ span. judged_span (Some (written_view written.entry)) ≡ Ok (Some (span_view span)))
        (λ fault. judged_span (Some (written_view written.entry)) ≡ Err fault) }
{
    match written {
        WrittenSpan::Named(name) => Ok(Span::Named(name)),
        WrittenSpan::Fixed(ends) => match range_of(ends) {
            Ok(range) => Ok(Span::Fixed(range)),
            Err(fault) => Err(fault),
        },
    }
}

// The span of a label, if it has one.
fn judged_span<'a>(written: Option<WrittenSpan<'a>>) -> Result<Option<Span<'a>>, LabelFault>
    ensures { MatchResult result
        (λ span. judged_span (option_map written_view written.entry) ≡ Ok (option_map span_view span))
        (λ fault. judged_span (option_map written_view written.entry) ≡ Err fault) }
{
    let Some(written) = written else {
        return Ok(None);
    };
    match made_span(written) {
        Ok(span) => Ok(Some(span)),
        Err(fault) => Err(fault),
    }
}

// What `read_label2` gives, according to the definitions of reading. The other clauses of `read_label2` follow from this clause.
fn read_judged2(text: &str) -> Result<Label2<'_>, LabelFault>
    ensures { LabelAgrees label2_view result (judged_label fixed_ends (label_of span_of text.now)) }
{
    let form = read_form2(text).ok_or(LabelFault::BadLabel)?;
    match judged_span(form.written) {
        Ok(span) => Ok(Label2 {
            kind: form.kind,
            shift: form.shift,
            tag: form.tag,
            span,
            note: form.note,
        }),
        Err(fault) => Err(fault),
    }
}

/// Reads a label of version 2. It is a label as [`read_label`](crate::read_label) reads it, or has a space, `$` and the name of a parameter in
/// place of the space and the two ends, as `@late+1:rd $tAA`. A name is 1 to 16 letters of ASCII, digits or `_`. It reports the first of these
/// faults: the text has neither form, an end is too wide, the ends are the wrong way round. The reader does not ask whether there is such a
/// parameter.
pub fn read_label2<'a>(text: &'a str) -> Result<Label2<'a>, LabelFault>
    // The label that is read is proper, and the text is its spelling: so its tag, its parameter and its note are in the text.
    ensures ok { IfOk result (λ l. IsProper version_2 (label2_view l) × (text.now ≡ spelling version_2 (label2_view l))) }
    // A proper label that the text spells is read.
    ensures only { (l : LooseLabel SpanSeen) → IsProper version_2 l → text.now ≡ spelling version_2 l
        → IsOkAnd result (λ found. label2_view found ≡ l) }
    ensures bad { IsErrOf result LabelFault.BadLabel ↔ IsUnspelled version_2 text.now }
    ensures wide { IsErrOf result LabelFault.TooWide ↔ SpellsWideEnd version_2 text.now }
    ensures empty { IsErrOf result LabelFault.EmptyRange ↔ SpellsReversedEnds version_2 text.now }
    // The same according to the definitions of reading, for the definitions of crates above this one.
    ensures exact { LabelAgrees label2_view result (judged_label fixed_ends (label_of span_of text.now)) }
{
    read_judged2(text)
}
