//! The notes of edges and wires as they are written, byte by byte, whether they can be printed or not.

ghost use Rattle.std.specs.Prelude.{◌≡◌, [], Some, unwrap_or};
ghost use Rattle.std.specs.Option.{option_copied};
ghost use Rattle.label_grammar.specs.Answer.{judged_label};
ghost use Rattle.label_grammar.specs.Edge.{edge_of};
ghost use Rattle.label_grammar.specs.Label.{fixed_ends};
ghost use Rattle.label_grammar.specs.Reading.{ends_of, label_of, span_of};
ghost use Rattle.label_grammar.specs.Wire.{wire_of};
ghost use Rattle.lint.specs.Texts.{edge_written, label_written, wire_written, written_note};

use label_grammar::{EdgeText, WireText, read_edge, read_label, read_label2, read_wire};

/// The note of the text of an edge of a sheet, in the version of the netlist; an empty text where there is none.
pub fn edge_written(version: u32, text: &str) -> &str
    ensures note { result.now ≡ edge_written version (edge_of text.now) }
{
    match read_edge(text) {
        EdgeText::Timing { label, .. } => label_written(version, label),
        EdgeText::Comment | EdgeText::Malformed => "",
    }
}

/// The note of the text of a wire; an empty text where there is none.
pub fn wire_written(text: &str) -> &str
    ensures note { result.now ≡ wire_written (wire_of text.now) }
{
    match read_wire(text) {
        WireText::Timing { label, .. } => plain_written(label),
        WireText::Comment | WireText::Malformed => "",
    }
}

// The note of a label, in the version of the netlist.
fn label_written(version: u32, label: &str) -> &str
    ensures { result.now ≡ label_written version label.now }
{
    if version == 2 {
        graded_written(label)
    } else {
        plain_written(label)
    }
}

// The note of a label of version 1.
fn plain_written(label: &str) -> &str
    ensures { result.now ≡ written_note (judged_label (λ ends. Some ends) (label_of ends_of label.now)) }
{
    match read_label(label) {
        Ok(label) => or_nothing(label.note),
        Err(_) => "",
    }
}

// The note of a label of version 2.
fn graded_written(label: &str) -> &str
    ensures { result.now ≡ written_note (judged_label fixed_ends (label_of span_of label.now)) }
{
    match read_label2(label) {
        Ok(label) => or_nothing(label.note),
        Err(_) => "",
    }
}

// A note, or an empty text.
fn or_nothing(note: Option<&str>) -> &str
    ensures { result.now ≡ unwrap_or (option_copied note.entry) [] }
{
    match note {
        Some(note) => note,
        None => "",
    }
}
