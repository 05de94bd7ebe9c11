//! What draws a cause or a row.

ghost use Rattle.std.specs.Prelude.{◌≡◌, ◌++◌};
ghost use Rattle.std.specs.List.{flat_map};
ghost use Rattle.itv_base.specs.Outside.{Puts};
ghost use Rattle.line_words.specs.Lines.{spaced};
ghost use Rattle.job_why.specs.Step.{by_words};
ghost use Rattle.job_why.specs.Text.{grade_word, some_word};

use itv_base::{PutFailed, Sink, put_all};
use line_words::put_spaced;
use origin::{Notes, Origin, put_origin};

/// What draws a cause or a row, its note, and of a row the speed grade of its part. The note and the grade are empty if there is none.
#[derive(Clone, Copy)]
pub struct DrawnBy<'a> {
    pub origin: Origin,
    pub note: &'a str,
    pub grade: &'a str,
}

impl<'a> DrawnBy<'a> {
    ghost use Rattle.std.specs.Prelude.{◌≡◌};
    ghost use Rattle.job_why.specs.Step.{by_words};
    ghost use Rattle.job_why.specs.Text.{origin_words, row_origin_words};

    /// What draws a cause of a part, with its note.
    pub fn of<N: Notes>(notes: &'a N, part: &str, origin: Origin) -> DrawnBy<'a>
        ensures words { by_words result ≡ origin_words (N.noted notes.now) part.now origin }
    {
        DrawnBy {
            origin,
            note: notes.note(part, origin),
            grade: "",
        }
    }

    /// What draws a row of a part, with its note and the speed grade of the part.
    pub fn of_row<N: Notes>(notes: &'a N, part: &str, origin: Origin) -> DrawnBy<'a>
        ensures words { by_words result ≡ row_origin_words (N.noted notes.now) part.now origin }
    {
        DrawnBy {
            origin,
            note: notes.note(part, origin),
            grade: notes.grade(part, origin),
        }
    }
}

/// Puts a space and a word for what draws a cause or a row, and a space and a word each for its note and its speed grade, if they are there.
pub fn put_by<K: Sink>(by: &DrawnBy<'_>, sink: &mut K) -> Result<(), PutFailed>
    ensures puts { Puts (K.state sink.old) (K.state sink.new) (flat_map spaced (by_words by.now)) result }
{
    sink.put(b" ")?;
    put_origin(by.origin, sink)?;
    put_told(by.note, by.grade, sink)
}

// Puts a space and a word each for a note and a speed grade, if they are there.
fn put_told<K: Sink>(note: &str, grade: &str, sink: &mut K) -> Result<(), PutFailed>
    ensures { Puts (K.state sink.old) (K.state sink.new) (flat_map spaced (some_word note.now ++ grade_word grade.now)) result }
{
    put_note(note, sink)?;
    put_grade(grade, sink)
}

// Puts a space and a note, if there is one.
fn put_note<K: Sink>(note: &str, sink: &mut K) -> Result<(), PutFailed>
    ensures { Puts (K.state sink.old) (K.state sink.new) (flat_map spaced (some_word note.now)) result }
{
    if note.is_empty() {
        return Ok(());
    }
    put_spaced(note.as_bytes(), sink)
}

// Puts a space and a speed grade in brackets, if there is one.
fn put_grade<K: Sink>(grade: &str, sink: &mut K) -> Result<(), PutFailed>
    ensures { Puts (K.state sink.old) (K.state sink.new) (flat_map spaced (grade_word grade.now)) result }
{
    if grade.is_empty() {
        return Ok(());
    }
    put_all(sink, &[b" (", grade.as_bytes(), b")"])
}
