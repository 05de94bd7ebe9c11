//! Writing a label.

ghost use Rattle.std.specs.Prelude.{◌≡◌};
ghost use Rattle.std.specs.Option.{option_copied};
ghost use Rattle.itv_base.specs.Outside.{Puts};
ghost use Rattle.label_grammar.specs.Label.{label_view, version_1, IsProper, spelling, shift_text, tag_text, ends_text, optional_text, note_text};

use crate::label::Label;
use itoa::Buffer;
use itv_base::{PutFailed, Range, Sink, end_text, number_text, put_all};

fn write_shift<K: Sink>(shift: u32, sink: &mut K) -> Result<(), PutFailed>
    ensures { Puts (K.state sink.old) (K.state sink.new) (shift_text shift) result }
{
    if shift == 0 {
        return Ok(());
    }
    let mut buffer = Buffer::new();
    let digits = number_text(u64::from(shift), &mut buffer);
    put_all(sink, &[b"+", digits.as_bytes()])
}

fn write_tag<K: Sink>(tag: Option<&str>, sink: &mut K) -> Result<(), PutFailed>
    ensures { Puts (K.state sink.old) (K.state sink.new) (tag_text (option_copied tag.entry)) result }
{
    match tag {
        None => Ok(()),
        Some(tag) => put_all(sink, &[b":", tag.as_bytes()]),
    }
}

fn write_range<K: Sink>(range: Option<Range>, sink: &mut K) -> Result<(), PutFailed>
    ensures { Puts (K.state sink.old) (K.state sink.new) (optional_text ends_text range) result }
{
    let Some(range) = range else {
        return Ok(());
    };
    let mut low = Buffer::new();
    let mut high = Buffer::new();
    let low = end_text(range.low(), &mut low);
    let high = end_text(range.high(), &mut high);
    put_all(sink, &[b" [", low.as_bytes(), b",", high.as_bytes(), b"]"])
}

fn write_note<K: Sink>(note: Option<&str>, sink: &mut K) -> Result<(), PutFailed>
    ensures { Puts (K.state sink.old) (K.state sink.new) (note_text (option_copied note.entry)) result }
{
    match note {
        None => Ok(()),
        Some(note) => put_all(sink, &[b" ", note.as_bytes()]),
    }
}

/// Writes the spelling of a label. If a put failed, a front of the spelling was written, and the sink's count of faults rose.
pub fn write_label<K: Sink>(label: &Label<'_>, sink: &mut K) -> Result<(), PutFailed>
    requires { IsProper version_1 (label_view label.now) }
    ensures puts { Puts (K.state sink.old) (K.state sink.new) (spelling version_1 (label_view label.now)) result }
{
    sink.put(label.kind.word().as_bytes())?;
    write_shift(label.shift, sink)?;
    write_tag(label.tag, sink)?;
    write_range(label.range, sink)?;
    write_note(label.note, sink)
}
