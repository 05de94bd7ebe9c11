//! Labels that are read and written again, proved from the public clauses of reading and writing and from the laws of
//! labels alone.

ghost use Rattle.std.specs.Prelude.{◌≡◌, IfOk, IfSome, Some};
ghost use Rattle.itv_base.specs.Range.{Ends};
ghost use Rattle.label_grammar.specs.Label.{IsLoose, LooseLabel, spelling, version_1};
ghost use Rattle.label_grammar.specs.Reading.{ends_of, label_of};

use itv_base::{NoMemory, PutFailed, SinkMem};
use label_grammar::{read_label, reading_inverts_spelling, write_label};
use std::alloc::Global;

/// A label that is read from a text and written again, in room for so many bytes: it is just the text. Only one label
/// has this spelling, and it is the one that is read from it. `None` if the text is no label or the room does not
/// suffice.
pub fn written_again(alloc: Global, text: &str, room: u32) -> Result<Option<SinkMem>, NoMemory>
    ensures same { IfOk result (λ written. IfSome written (λ sink. sink.bytes ≡ text.now)) }
    ensures one { IfOk result (λ written. IfSome written (λ sink. (l : LooseLabel Ends) → IsLoose version_1 l
        → sink.bytes ≡ spelling version_1 l → label_of ends_of sink.bytes ≡ Some l)) }
{
    reading_inverts_spelling();
    let Ok(label) = read_label(text) else {
        return Ok(None);
    };
    let mut sink = SinkMem::new(alloc, room)?;
    match write_label(&label, &mut sink) {
        Ok(()) => Ok(Some(sink)),
        Err(PutFailed) => Ok(None),
    }
}
