//! What one edge of a drawing says.

ghost use Rattle.std.specs.Prelude.{◌≡◌, ◌≤◌, length, option_map, unwrap_or};
ghost use Rattle.sheet.specs.Fault.{is_memory};
ghost use Rattle.itv_base.specs.Reading.{AgreesWith};
ghost use Rattle.sheet.specs.Links.{number_of, link_of, source_of, open_ends};
ghost use Rattle.sheet.specs.Step.{labels_view, link_view};

use crate::fault::SheetFault;
use crate::labels::{Labels, read_label_in};
use crate::mark::{MAX_MARKS, Mark};
use crate::rule::RuleCause;
use itv_base::Range;
use label_grammar::{EdgeText, Label, read_edge};
use origin::Origin;

/// A timing edge: it goes from a mark to a mark, both by number, and has a label. Its origin says which edge it is.
#[derive(Clone, Copy)]
pub struct Link<'a> {
    pub from: u32,
    pub to: u32,
    pub origin: Origin,
    pub label: Label<'a>,
}

/// What the text of an edge says, by the number of the edge: nothing where it is a comment.
#[tactic(auto, unfolding(crate::specs::Links::link_of))]
pub fn read_link<'a>(
    labels: Labels<'_>,
    marks: &[Mark],
    n: u64,
    text: &'a str,
) -> Result<Option<Link<'a>>, SheetFault>
    requires { length marks.now ≤ MAX_MARKS }
    ensures { AgreesWith is_memory (λ link. option_map link_view link) result (link_of (labels_view labels.entry) marks.now n text.now) }
{
    let (from, to, label) = match read_edge(text) {
        EdgeText::Comment => return Ok(None),
        EdgeText::Malformed => return Err(SheetFault::BadEdge(n)),
        EdgeText::Timing { from, to, label } => (from, to, label),
    };
    // A `?` on a value that holds a text beside a range gets no proof.
    let label = match read_label_in(labels, n, label) {
        Ok(label) => label,
        Err(fault) => return Err(fault),
    };
    let from = number_of(marks, from).ok_or(SheetFault::NoMark(n, from))?;
    let to = number_of(marks, to).ok_or(SheetFault::NoMark(n, to))?;
    let origin = Origin::Edge(n);
    Ok(Some(Link {
        from,
        to,
        origin,
        label,
    }))
}

// The number of the mark with a name.
fn number_of(marks: &[Mark], name: u8) -> Option<u32>
    requires { length marks.now ≤ MAX_MARKS }
    ensures { result ≡ number_of marks.now name }
{
    position_of(marks, name).map(|number| number as u32)
}

fn position_of(marks: &[Mark], name: u8) -> Option<usize>
    ensures { result ≡ number_of marks.now name }
{
    marks.iter().position(|mark| mark.name == name)
}

impl Link<'_> {
    /// The link as a cause.
    pub fn source(&self) -> RuleCause
        ensures source { result ≡ source_of (link_view self.now) }
    {
        RuleCause {
            mark: self.from,
            shift: self.label.shift,
            range: self.range(),
            origin: self.origin,
        }
    }

    /// The range of the label, open where it has none.
    pub fn range(&self) -> Range
        ensures range { result ≡ unwrap_or self.now.label.range open_ends }
    {
        match self.label.range {
            Some(range) => range,
            None => Range::new(None, None).unwrap(),
        }
    }
}
