//! The bytes of texts that can be printed.

ghost use Rattle.std.specs.Prelude.{◌≡◌, [], ◌∷◌, if◌then◌else◌};
ghost use Rattle.std.specs.List.{filter, list_any};
ghost use Rattle.itv_base.specs.Outside.{Puts};
ghost use Rattle.design_plan.specs.Notes.{is_printed_byte};

use itv_base::{PutFailed, Sink};

/// Puts the bytes of a text that can be printed.
pub fn put_printed<K: Sink>(text: &[u8], sink: &mut K) -> Result<(), PutFailed>
    ensures puts { Puts (K.state sink.old) (K.state sink.new) (filter is_printed_byte text.now) result }
{
    for byte in text {
        put_byte(*byte, sink)?;
    }
    Ok(())
}

// Puts a byte, if it can be printed.
fn put_byte<K: Sink>(byte: u8, sink: &mut K) -> Result<(), PutFailed>
    ensures { Puts (K.state sink.old) (K.state sink.new) (if is_printed_byte byte then byte ∷ [] else []) result }
{
    if is_printed_byte(byte) {
        sink.put(&[byte])
    } else {
        Ok(())
    }
}

/// Whether some byte of a text can be printed.
pub fn is_any_printed(text: &[u8]) -> bool
    ensures any { result ≡ list_any is_printed_byte text.now }
{
    text.iter().any(|byte| is_printed_byte(*byte))
}

fn is_printed_byte(byte: u8) -> bool
    ensures { result ≡ is_printed_byte byte }
{
    32 <= byte && byte <= 126
}
