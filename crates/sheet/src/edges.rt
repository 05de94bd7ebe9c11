//! The rules and the rows of the edges of a drawing, in one pass over the edges.

ghost use Rattle.std.specs.Prelude.{◌≤◌, length};
ghost use Rattle.sheet.specs.Fault.{is_memory};
ghost use Rattle.itv_base.specs.Reading.{AgreesWith};
ghost use Rattle.sheet.specs.Links.{links_of};
ghost use Rattle.sheet.specs.Step.{labels_view, rules_and_rows};

use crate::fault::SheetFault;
use crate::groups::{Places, push_link};
use crate::labels::Labels;
use crate::link::read_link;
use crate::mark::{MAX_MARKS, Mark};
use crate::row::SheetRows;
use crate::rows::push_row;
use crate::rule::{Rule, Rules};
use itv_base::Texts;
use std::alloc::Global;

/// What the edges of a drawing give.
#[derive(Drop)]
pub struct EdgeRules {
    pub rules: Rules,
    pub rows: SheetRows,
}

/// The rules of the edges, after the given rules, and the rows of the edges; or the first fault of an edge.
///
/// The edges are read once. A table gives the place of the rule of each group; it says where a cause belongs.
pub fn read_edges(
    alloc: Global,
    labels: Labels<'_>,
    marks: &[Mark],
    edges: &Texts,
    mut rules: Vec<Rule>,
) -> Result<EdgeRules, SheetFault>
    requires { length marks.now ≤ MAX_MARKS }
    ensures { AgreesWith is_memory (λ read. read) result (rules_and_rows rules.items (links_of (labels_view labels.entry) marks.now edges.now)) }
{
    let mut places = Places::new(alloc);
    let mut rows = SheetRows::new(alloc);
    for n in 0..edges.len() {
        // A `?` on a link gets no proof, since it holds a text beside a range.
        let link = match read_link(labels, marks, n, edges.get(n).as_text()) {
            Ok(Some(link)) => link,
            Ok(None) => continue,
            Err(fault) => return Err(fault),
        };
        push_link(alloc, &mut rules, &mut places, n, &link)?;
        push_row(&mut rows, &link)?;
    }
    Ok(EdgeRules {
        rules: Rules::from(rules),
        rows,
    })
}
