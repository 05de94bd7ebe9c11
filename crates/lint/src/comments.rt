//! Comments, and signs of labels in them.

ghost use Rattle.std.specs.Prelude.{◌≡◌};
ghost use Rattle.std.specs.List.{list_any};
ghost use Rattle.label_grammar.specs.Edge.{edge_of};
ghost use Rattle.label_grammar.specs.Wire.{wire_of};
ghost use Rattle.lint.specs.Texts.{is_edge_comment, is_sign, is_wire_comment};

use label_grammar::{EdgeText, WireText, read_edge, read_wire};

/// Whether the text of an edge of a sheet is a comment.
pub fn is_edge_comment(text: &str) -> bool
    ensures { result ≡ is_edge_comment (edge_of text.now) }
{
    match read_edge(text) {
        EdgeText::Comment => true,
        EdgeText::Timing { .. } | EdgeText::Malformed => false,
    }
}

/// Whether the text of an edge of the netlist is a comment.
pub fn is_wire_comment(text: &str) -> bool
    ensures { result ≡ is_wire_comment (wire_of text.now) }
{
    match read_wire(text) {
        WireText::Comment => true,
        WireText::Timing { .. } | WireText::Malformed => false,
    }
}

/// Whether a text has `@` or an opening bracket.
pub fn has_sign(text: &[u8]) -> bool
    ensures { result ≡ list_any is_sign text.now }
{
    text.iter().any(|byte| is_sign(*byte))
}

fn is_sign(byte: u8) -> bool
    ensures { result ≡ is_sign byte }
{
    byte == b'@' || byte == b'['
}
