//! Putting a line.

ghost use Rattle.std.specs.Prelude.{◌≡◌, ◌∷◌, ◌++◌, [], codes};
ghost use Rattle.std.specs.List.{flat_map};
ghost use Rattle.itv_base.specs.Names.{name_view};
ghost use Rattle.itv_base.specs.Numerals.{number_text, signed_text};
ghost use Rattle.itv_base.specs.Outside.{Puts};
ghost use Rattle.line_words.specs.Lines.{ended, line_of, spaced};
ghost use Rattle.requirements.specs.declared.bound.Bound.{Bound};
ghost use Rattle.requirements.specs.declared.verdict.Verdict.{Verdict};
ghost use Rattle.slack_report.specs.Text.{bound_words, name_word, range_word, row_words, verdict_words};
ghost use Rattle.job_why.specs.Step.{by_words, line_words};
ghost use Rattle.job_why.specs.Text.{rule_word};

use crate::drawn_by::{DrawnBy, put_by};
use crate::line::Line;
use itoa::Buffer;
use itv_base::{
    EventName, PutFailed, Range, RowKind, RuleKind, Sink, number_text, put_all, signed_text,
};
use line_words::LineBuffer;
use requirements::{BothBounds, Bound, Verdict};
use slack_report::{put_asked, put_bound_words, put_range, put_verdict_words};

/// Puts a line and its end, by one put if it fits the buffer, and otherwise piece by piece. What the buffer held before is forgotten.
pub fn put_line<K: Sink>(
    line: &Line<'_>,
    buffer: &mut LineBuffer,
    sink: &mut K,
) -> Result<(), PutFailed>
    ensures puts { Puts (K.state sink.old) (K.state sink.new) (ended (line_of (line_words line.now))) result }
{
    buffer.clear();
    match put_pieces(line, buffer) {
        Ok(()) => buffer.put_into(sink),
        Err(PutFailed) => put_pieces(line, sink),
    }
}

// Puts a line piece by piece.
fn put_pieces<K: Sink>(line: &Line<'_>, sink: &mut K) -> Result<(), PutFailed>
    ensures { Puts (K.state sink.old) (K.state sink.new) (ended (line_of (line_words line.now))) result }
{
    match line {
        Line::Step {
            from,
            to,
            weight,
            by,
        } => put_step(*from, *to, weight, by, sink),
        Line::Raise(name) => put_raise(*name, sink),
        Line::Order { both, word } => put_order(both, *word, sink),
        Line::Row {
            number,
            kind,
            from,
            to,
            by,
        } => put_row(*number, kind, *from, *to, by, sink),
        Line::Rule {
            kind,
            from,
            to,
            range,
            by,
        } => put_rule(*kind, *from, *to, range, by, sink),
    }
}

// ---- lines with what draws something

// Puts what draws a cause or a row, and the end of its line.
fn put_end<K: Sink>(by: &DrawnBy<'_>, sink: &mut K) -> Result<(), PutFailed>
    ensures { Puts (K.state sink.old) (K.state sink.new) (flat_map spaced (by_words by.now) ++ 10 ∷ []) result }
{
    put_by(by, sink)?;
    sink.put(b"\n")
}

// Puts the line of a step up to its weight.
fn put_weight<K: Sink>(
    from: EventName<'_>,
    to: EventName<'_>,
    weight: &i64,
    sink: &mut K,
) -> Result<(), PutFailed>
    ensures { Puts (K.state sink.old) (K.state sink.new) (line_of (codes "step"
        ∷ name_word (name_view from.entry) ∷ name_word (name_view to.entry) ∷ signed_text weight.now ∷ [])) result }
{
    let mut from_cycle = Buffer::new();
    let mut to_cycle = Buffer::new();
    let mut digits = Buffer::new();
    put_all(
        sink,
        &[
            b"step ",
            from.part.as_bytes(),
            b".",
            &[from.mark],
            b"@",
            number_text(u64::from(from.cycle), &mut from_cycle).as_bytes(),
            b" ",
            to.part.as_bytes(),
            b".",
            &[to.mark],
            b"@",
            number_text(u64::from(to.cycle), &mut to_cycle).as_bytes(),
            b" ",
            signed_text(*weight, &mut digits).as_bytes(),
        ],
    )
}

fn put_step<K: Sink>(
    from: EventName<'_>,
    to: EventName<'_>,
    weight: &i64,
    by: &DrawnBy<'_>,
    sink: &mut K,
) -> Result<(), PutFailed>
    ensures { Puts (K.state sink.old) (K.state sink.new) (ended (line_of (codes "step"
        ∷ name_word (name_view from.entry) ∷ name_word (name_view to.entry) ∷ signed_text weight.now ∷ by_words by.now))) result }
{
    put_weight(from, to, weight, sink)?;
    put_end(by, sink)
}

fn put_row<K: Sink>(
    number: u32,
    kind: &RowKind,
    from: EventName<'_>,
    to: EventName<'_>,
    by: &DrawnBy<'_>,
    sink: &mut K,
) -> Result<(), PutFailed>
    ensures { Puts (K.state sink.old) (K.state sink.new) (ended (line_of (codes "row" ∷ number_text number
        ∷ (row_words kind.now (name_view from.entry) (name_view to.entry) ++ by_words by.now)))) result }
{
    put_asked(number, kind, from, to, sink)?;
    put_end(by, sink)
}

// Puts the line of a cause up to the kind of its constraint.
fn put_kind<K: Sink>(kind: RuleKind, sink: &mut K) -> Result<(), PutFailed>
    ensures { Puts (K.state sink.old) (K.state sink.new) (line_of (codes "rule" ∷ rule_word kind ∷ [])) result }
{
    match kind {
        RuleKind::Lin => sink.put(b"rule lin"),
        RuleKind::Late => sink.put(b"rule late"),
        RuleKind::Early => sink.put(b"rule early"),
    }
}

// Puts a space and a name for each of two events.
fn put_names<K: Sink>(from: EventName<'_>, to: EventName<'_>, sink: &mut K) -> Result<(), PutFailed>
    ensures { Puts (K.state sink.old) (K.state sink.new)
        (flat_map spaced (name_word (name_view from.entry) ∷ name_word (name_view to.entry) ∷ [])) result }
{
    let mut from_cycle = Buffer::new();
    let mut to_cycle = Buffer::new();
    put_all(
        sink,
        &[
            b" ",
            from.part.as_bytes(),
            b".",
            &[from.mark],
            b"@",
            number_text(u64::from(from.cycle), &mut from_cycle).as_bytes(),
            b" ",
            to.part.as_bytes(),
            b".",
            &[to.mark],
            b"@",
            number_text(u64::from(to.cycle), &mut to_cycle).as_bytes(),
        ],
    )
}

// Puts the line of a cause up to its range.
fn put_cause<K: Sink>(
    kind: RuleKind,
    from: EventName<'_>,
    to: EventName<'_>,
    range: &Range,
    sink: &mut K,
) -> Result<(), PutFailed>
    ensures { Puts (K.state sink.old) (K.state sink.new) (line_of (codes "rule" ∷ rule_word kind
        ∷ name_word (name_view from.entry) ∷ name_word (name_view to.entry) ∷ range_word range.now ∷ [])) result }
{
    put_kind(kind, sink)?;
    put_names(from, to, sink)?;
    put_range(range, sink)
}

fn put_rule<K: Sink>(
    kind: RuleKind,
    from: EventName<'_>,
    to: EventName<'_>,
    range: &Range,
    by: &DrawnBy<'_>,
    sink: &mut K,
) -> Result<(), PutFailed>
    ensures { Puts (K.state sink.old) (K.state sink.new) (ended (line_of (codes "rule" ∷ rule_word kind
        ∷ name_word (name_view from.entry) ∷ name_word (name_view to.entry) ∷ range_word range.now ∷ by_words by.now))) result }
{
    put_cause(kind, from, to, range, sink)?;
    put_end(by, sink)
}

// ---- other lines

fn put_raise<K: Sink>(name: EventName<'_>, sink: &mut K) -> Result<(), PutFailed>
    ensures { Puts (K.state sink.old) (K.state sink.new) (ended (line_of (codes "raise" ∷ name_word (name_view name.entry) ∷ []))) result }
{
    let mut cycle = Buffer::new();
    put_all(
        sink,
        &[
            b"raise ",
            name.part.as_bytes(),
            b".",
            &[name.mark],
            b"@",
            number_text(u64::from(name.cycle), &mut cycle).as_bytes(),
            b"\n",
        ],
    )
}

// Puts the line of an order up to the greatest bound.
fn put_greatest<K: Sink>(value: Bound, sink: &mut K) -> Result<(), PutFailed>
    ensures { Puts (K.state sink.old) (K.state sink.new) (line_of (codes "order" ∷ codes "max" ∷ bound_words value)) result }
{
    sink.put(b"order max")?;
    put_bound_words(value, sink)
}

// Puts the least bound.
fn put_least<K: Sink>(value: Bound, sink: &mut K) -> Result<(), PutFailed>
    ensures { Puts (K.state sink.old) (K.state sink.new) (flat_map spaced (codes "min" ∷ bound_words value)) result }
{
    sink.put(b" min")?;
    put_bound_words(value, sink)
}

// Puts the verdict, and the end of its line.
fn put_verdict_end<K: Sink>(word: Verdict, sink: &mut K) -> Result<(), PutFailed>
    ensures { Puts (K.state sink.old) (K.state sink.new) (flat_map spaced (verdict_words word) ++ 10 ∷ []) result }
{
    put_verdict_words(word, sink)?;
    sink.put(b"\n")
}

fn put_order<K: Sink>(both: &BothBounds, word: Verdict, sink: &mut K) -> Result<(), PutFailed>
    ensures { Puts (K.state sink.old) (K.state sink.new) (ended (line_of (codes "order" ∷ codes "max"
        ∷ (bound_words both.now.greatest ++ (codes "min" ∷ (bound_words both.now.least ++ verdict_words word)))))) result }
{
    put_greatest(both.greatest, sink)?;
    put_least(both.least, sink)?;
    put_verdict_end(word, sink)
}
