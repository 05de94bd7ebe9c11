//! Edges of the netlist from a rise to a fall, or from a fall to a rise.

use crate::asked::sheet_at;
use crate::lead::{Lead, is_wire};
use crate::rule::is_linear;
use crate::warning::{DrawnPlace, Warning};
use crate::warning_word::WarningWord;
use compose::{Design, DesignMark};
use itv_base::NoMemory;
use wave_string::{MarkKind, may_join};

/// Puts a warning at the end for each edge of the netlist that carries a rise of a part to a fall of another part, or a fall to a rise: a linear rule, as a
/// net is, where a net would be refused. The leads are those of the design. The answer is `NoMemory` if memory runs out.
pub fn push_kinds(
    warnings: &mut Vec<Warning>,
    leads: &[Lead],
    design: &Design<'_>,
) -> Result<(), NoMemory> {
    for lead in leads {
        if is_carried(lead) && !is_joined(design, lead) {
            let place = DrawnPlace {
                part: 0,
                origin: lead.origin,
            };
            warnings.push(Warning::at(WarningWord::Kinds, place))?;
        }
    }
    Ok(())
}

// Whether a lead is an edge of the netlist between parts, and a linear rule.
fn is_carried(lead: &Lead) -> bool {
    is_wire(lead.origin) && is_linear(lead.kind) && lead.from.part != lead.to.part
}

// Whether a net may join the two marks of a lead.
fn is_joined(design: &Design<'_>, lead: &Lead) -> bool {
    may_join(kind_at(design, lead.from), kind_at(design, lead.to))
}

// What the wave draws at a mark. A mark that is not there is bare.
fn kind_at(design: &Design<'_>, mark: DesignMark) -> MarkKind {
    match sheet_at(design, mark.part) {
        Some(sheet) => match sheet.marks().as_slice().get(mark.mark as usize) {
            Some(mark) => mark.kind,
            None => MarkKind::Bare,
        },
        None => MarkKind::Bare,
    }
}
