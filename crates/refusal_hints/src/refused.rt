//! Why a run refused a design, or another file of its job.

use crate::file_fault::put_file_fault;
use crate::hint::Hint;
use crate::job_fault::put_job_fault;
use crate::join_fault::put_join_fault;
use crate::limit::put_limit_fault;
use crate::part::netlist_of;
use crate::source::{Source, bytes_of};
use command_words::Task;
use design_plan::Plan;
use design_reading::{Refusal, RefusalPlace, Stop, draw_plan, open_plan};
use itv_base::Shelf;
use netlist::Netlist;

/// Puts why the run of a task ended with a refusal, or nothing if a second reading does not show it.
pub fn put_refusal<H: Shelf>(hint: &mut Hint, task: Task<'_>, design: &str, shelf: &mut H) {
    match open_plan(hint.alloc(), design, shelf) {
        Ok(plan) => {
            put_plan_fault(hint, task, design, &plan, shelf);
            drop(plan);
        }
        Err(Stop::Refused(RefusalPlace::File(number), why)) => {
            put_place_fault(hint, design, number, why, shelf)
        }
        Err(Stop::NoMemory) => hint.cut(),
        Err(_) => {}
    }
}

// Why the file with a number is refused.
fn put_place_fault<H: Shelf>(
    hint: &mut Hint,
    design: &str,
    number: u64,
    why: Refusal,
    shelf: &mut H,
) {
    if number == 0 {
        put_file_fault(hint, design, None, why, shelf);
    } else if let Some(netlist) = netlist_of(hint.alloc(), design, shelf) {
        put_sheet_fault(hint, &netlist, number as usize - 1, why, shelf);
        drop(netlist);
    }
}

// Why the sheet with a number, counted from 0, of a netlist is refused.
fn put_sheet_fault<H: Shelf>(
    hint: &mut Hint,
    netlist: &Netlist,
    number: usize,
    why: Refusal,
    shelf: &mut H,
) {
    if let Some(name) = netlist.sheet_names().as_slice().get(number) {
        put_file_fault(hint, name.as_text(), Some(netlist), why, shelf);
    }
}

// Why a design is refused whose files are all well.
fn put_plan_fault<H: Shelf>(
    hint: &mut Hint,
    task: Task<'_>,
    design: &str,
    plan: &Plan,
    shelf: &mut H,
) {
    match draw_plan(hint.alloc(), plan) {
        Ok(drawn) => {
            put_job_fault(hint, task, &drawn, shelf);
            drop(drawn);
        }
        Err(stop) => put_undrawn(hint, design, plan, stop, shelf),
    }
}

// Why a plan draws no network.
fn put_undrawn<H: Shelf>(hint: &mut Hint, design: &str, plan: &Plan, stop: Stop, shelf: &mut H) {
    match stop {
        Stop::Refused(_, Refusal::Joins(fault)) => {
            if let Some(bytes) = bytes_of(hint.alloc(), design, shelf) {
                let source = Source {
                    name: design,
                    bytes: &bytes,
                };
                put_join_fault(hint, source, plan, fault);
                drop(bytes);
            }
        }
        Stop::Refused(_, Refusal::Limits(fault)) => {
            hint.begin();
            hint.put_plain(design);
            hint.put(": ");
            put_limit_fault(hint, fault);
        }
        Stop::NoMemory => hint.cut(),
        _ => {}
    }
}
