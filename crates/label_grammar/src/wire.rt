//! The wires of a netlist.

ghost use Rattle.std.specs.Prelude.{◌≡◌, option_map};
ghost use Rattle.label_grammar.specs.Wire.{wire_view, wire_of, part_mark_of};

use itv_base::{is_mark, is_name};

/// What the text of a wire says.
#[derive(Clone, Copy)]
pub enum WireText<'a> {
    /// There are not two spaces, or the label does not begin with `@`, so the wire means nothing.
    Comment,
    /// The wire goes from a mark of one part to a mark of another, each mark a visible character of ASCII. The label, not yet
    /// read, begins with `@`.
    Timing {
        from_part: &'a str,
        from_mark: u8,
        to_part: &'a str,
        to_mark: u8,
        label: &'a str,
    },
    /// The label begins with `@`, and a word before it does not name a mark of a part.
    Malformed,
}

// A mark of a part, as `U1.a`.
#[tactic(auto, unfolding(crate::specs::Wire::part_mark_of))]
fn read_part_mark(word: &str) -> Option<(&str, u8)>
    ensures { option_map (λ x. record { part = x.0.now; mark = x.1 }) result ≡ part_mark_of word.now }
{
    let (part, mark) = word.split_once('.')?;
    match mark.as_bytes() {
        [mark] if is_name(part) && is_mark(*mark) => Some((part, *mark)),
        _ => None,
    }
}

/// Cuts the text of a wire, as `U1.a U2.b @ask`, at its first two spaces into two words and a label. Each word is the name of
/// a part (1 to 16 letters of ASCII, digits or `_`), a full stop and a mark.
#[tactic(auto, unfolding(crate::specs::Wire::wire_of))]
pub fn read_wire<'a>(text: &'a str) -> WireText<'a>
    ensures says { wire_view result ≡ wire_of text.now }
{
    let Some((from, rest)) = text.split_once(' ') else {
        return WireText::Comment;
    };
    let Some((to, label)) = rest.split_once(' ') else {
        return WireText::Comment;
    };
    if !label.starts_with('@') {
        return WireText::Comment;
    }
    match (read_part_mark(from), read_part_mark(to)) {
        (Some((from_part, from_mark)), Some((to_part, to_mark))) => WireText::Timing {
            from_part,
            from_mark,
            to_part,
            to_mark,
            label,
        },
        _ => WireText::Malformed,
    }
}
