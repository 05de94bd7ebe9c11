//! Lines of proofs that own their edges.

ghost use Rattle.std.specs.Prelude.{◌≡◌};

use event_graph::Line;
use itv_base::EdgeName;

/// A line of a proof that owns its edges. It splits the case at hand by the causes of a constraint, or closes the case by a path or by
/// a loop.
#[derive(Drop)]
pub enum OwnedLine {
    Split(u32),
    Path(Vec<EdgeName>),
    Loop(Vec<EdgeName>),
}

impl OwnedLine {
    ghost use Rattle.event_graph.specs.Lines.{lent_line};
    ghost use Rattle.certificate.specs.Owned.{line_view};

    /// The line, lent.
    pub fn line(&self) -> Line<'_>
        ensures line { lent_line result ≡ line_view self.now }
    {
        match self {
            OwnedLine::Split(constraint) => Line::Split(*constraint),
            OwnedLine::Path(edges) => Line::Path(edges),
            OwnedLine::Loop(edges) => Line::Loop(edges),
        }
    }
}
