//! The names of events as they are kept, with the number of the part in place of its name.

ghost use Rattle.std.specs.Prelude.{◌≡◌, ◌++◌, IfOk, OnOk, map};
ghost use Rattle.unroll.specs.Cycles.{in_cycles};
ghost use Rattle.unroll.specs.Step.Labels.{label_of, labels_from};

use compose::Design;
use drawn_networks::EventLabel;
use itv_base::NoMemory;
use sheet::Mark;
use std::alloc::Global;

/// The labels of the events of a design, in their order.
pub fn labels_of(alloc: Global, design: &Design<'_>) -> Result<Vec<EventLabel>, NoMemory>
    ensures { IfOk result (λ labels. labels.items
        ≡ in_cycles (λ cycle. labels_from cycle 0 design.now.sheets) design.now.cycles) }
{
    let mut labels = Vec::new(alloc);
    for cycle in 0..design.cycles() {
        push_parts(&mut labels, cycle, design)?;
    }
    Ok(labels)
}

// Puts the labels of all marks in a cycle at the end.
fn push_parts(labels: &mut Vec<EventLabel>, cycle: u32, design: &Design<'_>) -> Result<(), NoMemory>
    ensures { OnOk result (labels.new.items ≡ labels.old.items ++ labels_from cycle 0 design.now.sheets) }
{
    let _cycles = design.cycles();
    let parts = design.parts().len() as u32;
    for part in 0..parts {
        push_marks(
            labels,
            part,
            cycle,
            design.sheet_of(part).marks().as_slice(),
        )?;
    }
    Ok(())
}

// Puts the labels of the marks of a part in a cycle at the end.
fn push_marks(
    labels: &mut Vec<EventLabel>,
    part: u32,
    cycle: u32,
    marks: &[Mark],
) -> Result<(), NoMemory>
    ensures { OnOk result (labels.new.items ≡ labels.old.items ++ map (label_of part cycle) marks.now) }
{
    for mark in marks {
        labels.push(EventLabel {
            part,
            mark: mark.name,
            cycle,
        })?;
    }
    Ok(())
}
