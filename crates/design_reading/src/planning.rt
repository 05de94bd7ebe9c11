//! Reading the plan of a design.

ghost use Rattle.std.specs.Prelude.{◌≡◌, ◌&&◌, IfOk, is_some, is_none, codes};
ghost use Rattle.serde_json.specs.Find.{get, as_object};
ghost use Rattle.serde_json.specs.View.{view};
ghost use Rattle.design_reading.specs.Design.{lone_at, netlist_at, plan_at};
ghost use Rattle.design_reading.specs.Step.{Opens, ReadsAs};
ghost use Rattle.design_reading.specs.Step.Gave.{GaveAfter, files_of};
ghost use Rattle.design_reading.specs.Step.Lone.{lone_plan, plain_key};

use crate::file::open_tree;
use crate::refusal_place::RefusalPlace;
use crate::sheets::{open_sheets, push_sheet, read_plain_sheet};
use crate::stop::{Stop, netlist_stop};
use compose::{SheetKey, Sheets};
use design_plan::Plan;
use itv_base::{NoMemory, Shelf, Text};
use netlist::{Netlist, read_netlist};
use serde_json::Value;
use sheet::Sheet;
use std::alloc::Global;

/// The plan of the design of a file.
///
/// The file is file 0. An object without the key `itv` is a lone sheet, and anything else is a netlist. The sheets of a netlist are fetched in
/// the order of first mention, as files 1, 2 and so on. Each file is judged by its length, its JSON, its drawing, in version 2 its speed grades,
/// and then its sheet. In version 2 its sheet is judged once for each grade, or none, that its parts name, in the order of first mention. The
/// first refusal ends the reading. A fetch that failed ends the reading where it stands, and the shelf keeps the name of the file.
///
/// `NoMemory` may come in place of any answer. `NoMemory` and a refusal leave the shelf as it was.
pub fn open_plan<H: Shelf>(alloc: Global, name: &str, shelf: &mut H) -> Result<Plan, Stop>
    ensures opens { Opens (λ plan. plan) (H.state shelf.old) (H.state shelf.new)
        (plan_at name.now) result }
{
    match open_read_plan(alloc, name, shelf) {
        Ok(ReadPlan { plan, is_lone: _ }) => Ok(plan),
        Err(stop) => Err(stop),
    }
}

/// A plan, and whether it is the plan of a lone sheet.
#[derive(Drop)]
pub struct ReadPlan {
    pub plan: Plan,
    pub is_lone: bool,
}

/// The same with whether the file is a lone sheet, which says what files were read.
pub fn open_read_plan<H: Shelf>(alloc: Global, name: &str, shelf: &mut H) -> Result<ReadPlan, Stop>
    ensures opens { Opens (λ read. read.plan) (H.state shelf.old) (H.state shelf.new)
        (plan_at name.now) result }
    ensures asked { IfOk result (λ read. GaveAfter (H.state shelf.old) (plan_at name.now) read.plan
        (files_of name.now read.is_lone read.plan.netlist.parts)) }
{
    let tree = open_tree(alloc, RefusalPlace::File(0), name, shelf)?;
    if is_lone(&tree) {
        let plan = read_lone(alloc, name, &tree)?;
        Ok(ReadPlan {
            plan,
            is_lone: true,
        })
    } else {
        let plan = open_netlist(alloc, &tree, shelf)?;
        Ok(ReadPlan {
            plan,
            is_lone: false,
        })
    }
}

// Whether a tree is an object without the key of a netlist.
fn is_lone(tree: &Value) -> bool
    ensures { result ≡ (is_some (as_object (view tree.now)) && is_none (get (codes "itv") (view tree.now))) }
{
    tree.is_object() && tree.get("itv").is_none()
}

// The plan of a lone sheet.
fn read_lone(alloc: Global, name: &str, tree: &Value) -> Result<Plan, Stop>
    ensures { ReadsAs (λ plan. plan) (lone_at name.now (view tree.now)) result }
{
    let sheet = read_plain_sheet(alloc, RefusalPlace::File(0), tree)?;
    let plan = lone_plan(alloc, name, sheet)?;
    Ok(plan)
}

// The sheet of a name as the one part of a netlist.
fn lone_plan(alloc: Global, name: &str, sheet: Sheet) -> Result<Plan, NoMemory>
    ensures { IfOk result (λ plan. plan ≡ lone_plan name.now sheet) }
{
    let key = match plain_key(alloc, name) {
        Ok(key) => key,
        Err(NoMemory) => {
            drop(sheet);
            return Err(NoMemory);
        }
    };
    let mut sheets = Sheets::new(alloc);
    push_sheet(&mut sheets, key, sheet)?;
    match Netlist::lone(alloc, name) {
        Ok(netlist) => Plan::of(alloc, netlist, sheets),
        Err(NoMemory) => {
            drop(sheets);
            Err(NoMemory)
        }
    }
}

// The key of a sheet without a speed grade.
fn plain_key(alloc: Global, name: &str) -> Result<SheetKey, NoMemory>
    ensures { IfOk result (λ key. key ≡ plain_key name.now) }
{
    Ok(SheetKey {
        sheet: Text::from_text(alloc, name)?,
        grade: None,
    })
}

// The plan of a netlist.
fn open_netlist<H: Shelf>(alloc: Global, tree: &Value, shelf: &mut H) -> Result<Plan, Stop>
    ensures { Opens (λ plan. plan) (H.state shelf.old) (H.state shelf.new)
        (netlist_at (view tree.now)) result }
{
    let netlist = match read_netlist(alloc, tree) {
        Ok(netlist) => netlist,
        Err(fault) => return Err(netlist_stop(RefusalPlace::File(0), fault)),
    };
    match open_sheets(alloc, &netlist, shelf) {
        Ok(sheets) => {
            let plan = Plan::of(alloc, netlist, sheets)?;
            Ok(plan)
        }
        Err(stop) => {
            drop(netlist);
            Err(stop)
        }
    }
}
