//! The notes of edges and of wires, and the names of nets.

ghost use Rattle.std.specs.Prelude.{◌≡◌, ◌&&◌, Some, nat_le};
ghost use Rattle.std.specs.List.{list_all};
ghost use Rattle.std.specs.Option.{option_copied};
ghost use Rattle.label_grammar.specs.Answer.{judged_label};
ghost use Rattle.label_grammar.specs.Label.{fixed_ends};
ghost use Rattle.label_grammar.specs.Reading.{ends_of, label_of, span_of};
ghost use Rattle.design_plan.specs.Notes.{edge_note, edge_title, is_printed, is_printed_byte, label_note, label_title, net_note, note_by, printed_note, text_or, title_by, wire_note};

use label_grammar::{EdgeText, Span, WireText, read_edge, read_label, read_label2, read_wire};
use netlist::PinNet;

/// The note of the text of an edge of a sheet, in the version of the netlist.
pub fn edge_note(version: u32, text: &str) -> &str
    ensures note { result.now ≡ edge_note version text.now }
{
    match read_edge(text) {
        EdgeText::Timing { label, .. } => label_note(version, label),
        EdgeText::Comment | EdgeText::Malformed => "",
    }
}

/// What the text of an edge of a sheet is called, in the version of the netlist: its note or, where that is empty, the name of its parameter.
pub fn edge_title(version: u32, text: &str) -> &str
    ensures title { result.now ≡ edge_title version text.now }
{
    match read_edge(text) {
        EdgeText::Timing { label, .. } => label_title(version, label),
        EdgeText::Comment | EdgeText::Malformed => "",
    }
}

/// The note of the text of a wire.
pub fn wire_note(text: &str) -> &str
    ensures note { result.now ≡ wire_note text.now }
{
    match read_wire(text) {
        WireText::Timing { label, .. } => plain_note(label),
        WireText::Comment | WireText::Malformed => "",
    }
}

/// The name of a net, or an empty text where it has none that can be printed.
pub fn net_note(net: &PinNet) -> &str
    ensures note { result.now ≡ net_note net.now }
{
    printed_note(net.name())
}

// The note of a label, in the version of the netlist.
fn label_note(version: u32, label: &str) -> &str
    ensures { result.now ≡ label_note version label.now }
{
    if version == 2 {
        graded_note(label)
    } else {
        plain_note(label)
    }
}

// The note of a label of version 1.
fn plain_note(label: &str) -> &str
    ensures { result.now ≡ note_by (judged_label (λ ends. Some ends) (label_of ends_of label.now)) }
{
    match read_label(label) {
        Ok(label) => printed_note(label.note),
        Err(_) => "",
    }
}

// The note of a label of version 2.
fn graded_note(label: &str) -> &str
    ensures { result.now ≡ note_by (judged_label fixed_ends (label_of span_of label.now)) }
{
    match read_label2(label) {
        Ok(label) => printed_note(label.note),
        Err(_) => "",
    }
}

// What a label is called, in the version of the netlist.
fn label_title(version: u32, label: &str) -> &str
    ensures { result.now ≡ label_title version label.now }
{
    if version == 2 {
        graded_title(label)
    } else {
        plain_note(label)
    }
}

// The note of a label of version 2, or the name of its parameter where the note is empty.
fn graded_title(label: &str) -> &str
    ensures { result.now ≡ title_by (judged_label fixed_ends (label_of span_of label.now)) }
{
    match read_label2(label) {
        Ok(label) => match label.span {
            Some(Span::Named(name)) => text_or(printed_note(label.note), printed_note(Some(name))),
            Some(Span::Fixed(_)) | None => printed_note(label.note),
        },
        Err(_) => "",
    }
}

// A text, or another one where it is empty.
fn text_or<'a>(text: &'a str, other: &'a str) -> &'a str
    ensures { result.now ≡ text_or text.now other.now }
{
    if text.is_empty() { other } else { text }
}

// A note that can be printed, or an empty text.
fn printed_note(note: Option<&str>) -> &str
    ensures { result.now ≡ printed_note (option_copied note.entry) }
{
    match note {
        Some(note) if is_printed(note.as_bytes()) => note,
        _ => "",
    }
}

fn is_printed(text: &[u8]) -> bool
    ensures { result ≡ is_printed text.now }
{
    text.iter().all(|byte| is_printed_byte(*byte))
}

fn is_printed_byte(byte: u8) -> bool
    ensures { result ≡ is_printed_byte byte }
{
    32 <= byte && byte <= 126
}
