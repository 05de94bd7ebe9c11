//! The files that a design is made of.

ghost use Rattle.std.specs.Prelude.{◌≡◌, ◌++◌, IfOk, OnOk};
ghost use Rattle.design_reading.specs.AskedFor.{files_at};
ghost use Rattle.design_reading.specs.Step.{Opens};
ghost use Rattle.design_reading.specs.Step.Gave.{files_of};

use crate::design::draw_plan;
use crate::planning::{ReadPlan, open_read_plan};
use crate::stop::Stop;
use itv_base::{NoMemory, Shelf, Texts};
use std::alloc::Global;

/// The names of the files that the design of a file is made of, in the order in which they are read: the file itself, and for a netlist the
/// sheets of its parts in the order of first mention.
///
/// A design that [`open_design`](crate::open_design) refuses is refused in the same way, and so is a file that can't be read. `NoMemory` may come in place of any
/// answer.
pub fn open_files<H: Shelf>(alloc: Global, name: &str, shelf: &mut H) -> Result<Texts, Stop>
    ensures opens { Opens (λ names. names) (H.state shelf.old) (H.state shelf.new)
        (files_at name.now) result }
{
    let read = open_read_plan(alloc, name, shelf)?;
    let drawn = draw_plan(alloc, &read.plan)?;
    drop(drawn);
    let names = files_of(alloc, name, &read)?;
    drop(read);
    Ok(names)
}

// The names of the files of a plan.
fn files_of(alloc: Global, name: &str, read: &ReadPlan) -> Result<Texts, NoMemory>
    ensures { IfOk result (λ names. names ≡ files_of name.now read.now.is_lone read.now.plan.netlist.parts) }
{
    let mut names = Texts::new(alloc)?;
    names.push(alloc, name)?;
    if !read.is_lone {
        push_all(alloc, &mut names, read.plan.netlist().sheet_names())?;
    }
    Ok(names)
}

// Puts texts after others.
fn push_all(alloc: Global, names: &mut Texts, others: &Texts) -> Result<(), NoMemory>
    ensures { OnOk result (names.new ≡ names.old ++ others.now) }
{
    for k in 0..others.len() {
        names.push(alloc, others.get(k).as_text())?;
    }
    Ok(())
}
