//! The edges of a sheet.

ghost use Rattle.std.specs.Prelude.{◌≡◌};
ghost use Rattle.label_grammar.specs.Edge.{edge_view, edge_of};

use itv_base::is_mark;

/// What the text of an edge says.
#[derive(Clone, Copy)]
pub enum EdgeText<'a> {
    /// The label does not begin with `@`, so the edge means nothing.
    Comment,
    /// The edge goes from one mark to another, each a visible character of ASCII. The label, not yet read, begins with `@`.
    Timing { from: u8, to: u8, label: &'a str },
    /// The label begins with `@`, and the word before it does not name two marks.
    Malformed,
}

/// Cuts the text of an edge, as `a~>b @lin [0,250]`, at its first space into a shape word and a label. The shape word has at least three
/// characters. The first and the last are the marks that the edge joins. The characters between them may be any.
#[tactic(auto, unfolding(crate::specs::Edge::edge_of))]
pub fn read_edge<'a>(text: &'a str) -> EdgeText<'a>
    ensures says { edge_view result ≡ edge_of text.now }
{
    let Some((shape, label)) = text.split_once(' ') else {
        return EdgeText::Comment;
    };
    if !label.starts_with('@') {
        return EdgeText::Comment;
    }
    match shape.as_bytes() {
        [from, _, .., to] if is_mark(*from) && is_mark(*to) => EdgeText::Timing {
            from: *from,
            to: *to,
            label,
        },
        _ => EdgeText::Malformed,
    }
}
