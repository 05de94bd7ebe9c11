//! Putting a line word by word.

ghost use Rattle.std.specs.Prelude.{map, ◌∷◌};
ghost use Rattle.std.specs.List.{flat_map};
ghost use Rattle.itv_base.specs.Outside.{Puts};
ghost use Rattle.line_words.specs.Lines.{ended, line_of, spaced};

use itv_base::{PutFailed, Sink, put_all};

/// Puts a space and a word.
pub fn put_spaced<K: Sink>(word: &[u8], sink: &mut K) -> Result<(), PutFailed>
    ensures puts { Puts (K.state sink.old) (K.state sink.new) (spaced word.now) result }
{
    put_all(sink, &[b" ", word])
}

// Puts a space and a word, for each word.
fn put_others<K: Sink>(others: &[&[u8]], sink: &mut K) -> Result<(), PutFailed>
    ensures { Puts (K.state sink.old) (K.state sink.new) (flat_map spaced (map (λ w. w.now) others.now)) result }
{
    for word in others {
        put_spaced(word, sink)?;
    }
    Ok(())
}

/// Puts the line of the words and its end. If a put failed, a front of the line was written, and the sink's count of
/// faults rose.
pub fn put_words<K: Sink>(first: &[u8], others: &[&[u8]], sink: &mut K) -> Result<(), PutFailed>
    ensures puts { Puts (K.state sink.old) (K.state sink.new)
        (ended (line_of (first.now ∷ map (λ w. w.now) others.now))) result }
{
    sink.put(first)?;
    put_others(others, sink)?;
    sink.put(b"\n")
}
