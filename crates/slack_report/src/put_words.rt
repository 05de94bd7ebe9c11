//! Putting the words of rows, bounds and verdicts. The lines of reports are made of them, and so are lines of other texts.

ghost use Rattle.std.specs.Prelude.{◌≡◌, ◌∷◌, [], codes};
ghost use Rattle.std.specs.List.{flat_map};
ghost use Rattle.itv_base.specs.Names.{name_view};
ghost use Rattle.itv_base.specs.Numerals.{number_text};
ghost use Rattle.itv_base.specs.Outside.{Puts};
ghost use Rattle.itv_base.specs.declared.row_kind.RowKind.TheVariants.{Req};
ghost use Rattle.line_words.specs.Lines.{line_of, spaced};
ghost use Rattle.slack_report.specs.Text.{bound_words, name_word, range_word, row_words, verdict_words};

use itoa::Buffer;
use itv_base::{
    EventName, PutFailed, Range, RowKind, Sink, end_text, number_text, put_all, signed_text,
};
use requirements::{Bound, Verdict};

/// Puts the line of what is asked of a row, without its end.
pub fn put_asked<K: Sink>(
    number: u32,
    kind: &RowKind,
    from: EventName<'_>,
    to: EventName<'_>,
    sink: &mut K,
) -> Result<(), PutFailed>
    ensures puts { Puts (K.state sink.old) (K.state sink.new)
        (line_of (codes "row" ∷ number_text number ∷ row_words kind.now (name_view from.entry) (name_view to.entry))) result }
{
    match kind {
        RowKind::Ask => put_between(number, b"ask", from, to, sink),
        RowKind::Req(range) => put_demand(number, range, from, to, sink),
    }
}

// Puts the line of a requirement up to its range.
fn put_demand<K: Sink>(
    number: u32,
    range: &Range,
    from: EventName<'_>,
    to: EventName<'_>,
    sink: &mut K,
) -> Result<(), PutFailed>
    ensures { Puts (K.state sink.old) (K.state sink.new)
        (line_of (codes "row" ∷ number_text number ∷ row_words (Req range.now) (name_view from.entry) (name_view to.entry))) result }
{
    put_between(number, b"req", from, to, sink)?;
    put_range(range, sink)
}

// Puts the line of a row up to its names, with a word for its kind.
fn put_between<K: Sink>(
    number: u32,
    word: &'static [u8],
    from: EventName<'_>,
    to: EventName<'_>,
    sink: &mut K,
) -> Result<(), PutFailed>
    ensures { Puts (K.state sink.old) (K.state sink.new) (line_of (codes "row" ∷ number_text number ∷ word.now
        ∷ name_word (name_view from.entry) ∷ name_word (name_view to.entry) ∷ [])) result }
{
    let mut digits = Buffer::new();
    let mut from_cycle = Buffer::new();
    let mut to_cycle = Buffer::new();
    put_all(
        sink,
        &[
            b"row ",
            number_text(u64::from(number), &mut digits).as_bytes(),
            b" ",
            word,
            b" ",
            from.part.as_bytes(),
            b".",
            &[from.mark],
            b"@",
            number_text(u64::from(from.cycle), &mut from_cycle).as_bytes(),
            b" ",
            to.part.as_bytes(),
            b".",
            &[to.mark],
            b"@",
            number_text(u64::from(to.cycle), &mut to_cycle).as_bytes(),
        ],
    )
}

/// Puts a space and a range.
pub fn put_range<K: Sink>(range: &Range, sink: &mut K) -> Result<(), PutFailed>
    ensures puts { Puts (K.state sink.old) (K.state sink.new) (spaced (range_word range.now)) result }
{
    let mut low = Buffer::new();
    let mut high = Buffer::new();
    put_all(
        sink,
        &[
            b" [",
            end_text(range.low(), &mut low).as_bytes(),
            b",",
            end_text(range.high(), &mut high).as_bytes(),
            b"]",
        ],
    )
}

/// Puts a space and a word for each word of a bound.
pub fn put_bound_words<K: Sink>(value: Bound, sink: &mut K) -> Result<(), PutFailed>
    ensures puts { Puts (K.state sink.old) (K.state sink.new) (flat_map spaced (bound_words value)) result }
{
    let mut limit_digits = Buffer::new();
    let mut digits = Buffer::new();
    match value {
        Bound::Closed(number) => {
            put_all(sink, &[b" ", signed_text(number, &mut digits).as_bytes()])
        }
        Bound::Unbounded => sink.put(b" unbounded"),
        Bound::Within {
            limit,
            attained: None,
        } => put_all(
            sink,
            &[b" within ", end_text(limit, &mut limit_digits).as_bytes()],
        ),
        Bound::Within {
            limit,
            attained: Some(found),
        } => put_all(
            sink,
            &[
                b" within ",
                end_text(limit, &mut limit_digits).as_bytes(),
                b" found ",
                signed_text(found, &mut digits).as_bytes(),
            ],
        ),
    }
}

/// Puts a space and a word for each word of a verdict.
pub fn put_verdict_words<K: Sink>(word: Verdict, sink: &mut K) -> Result<(), PutFailed>
    ensures puts { Puts (K.state sink.old) (K.state sink.new) (flat_map spaced (verdict_words word)) result }
{
    match word {
        Verdict::Pass => sink.put(b" pass"),
        Verdict::FailHigh => sink.put(b" fail high"),
        Verdict::FailLow => sink.put(b" fail low"),
        Verdict::Undecided => sink.put(b" undecided"),
    }
}
