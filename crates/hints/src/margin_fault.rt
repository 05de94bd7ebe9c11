//! Why job margin refuses a design with too many numbers, or a list of numbers.

use design_plan::Plan;
use design_reading::{draw_plan, open_plan};
use drawn_networks::DrawnNetwork;
use itv_base::{NoMemory, Shelf};
use job_margin::{ListFault, read_numbers};
use moves::numbers_of;
use refusal_hints::{Hint, put_too_many};
use unroll::{Limit, MAX_NUMBERS};

/// Why job margin refuses the design that is read once more, or its list. Nothing is put if the reading does not show it.
pub fn put_margin_refusal<H: Shelf>(
    hint: &mut Hint,
    list: Option<&str>,
    design: &str,
    shelf: &mut H,
) {
    if let Ok(plan) = open_plan(hint.alloc(), design, shelf) {
        put_plan_refusal(hint, list, &plan);
        drop(plan);
    }
}

fn put_plan_refusal(hint: &mut Hint, list: Option<&str>, plan: &Plan) {
    if let Ok(drawn) = draw_plan(hint.alloc(), plan) {
        put_drawn_refusal(hint, list, &drawn);
        drop(drawn);
    }
}

fn put_drawn_refusal(hint: &mut Hint, list: Option<&str>, drawn: &DrawnNetwork) {
    match count_numbers(hint, drawn) {
        Some(count) if count > u64::from(MAX_NUMBERS) => {
            hint.begin();
            put_too_many(hint, Limit::Numbers, u128::from(count))
        }
        Some(_) => {
            if let Some(list) = list {
                put_list_refusal(hint, list, drawn);
            }
        }
        None => hint.cut(),
    }
}

// How many numbers with a range a network has, if there is memory for a list of them.
fn count_numbers(hint: &Hint, drawn: &DrawnNetwork) -> Option<u64> {
    match numbers_of(hint.alloc(), drawn) {
        Ok(numbers) => {
            let count = numbers.len() as u64;
            drop(numbers);
            Some(count)
        }
        Err(NoMemory) => None,
    }
}

fn put_list_refusal(hint: &mut Hint, list: &str, drawn: &DrawnNetwork) {
    match read_numbers(hint.alloc(), drawn, list) {
        Ok(numbers) => drop(numbers),
        Err(ListFault::NoNumber(place)) => put_name_refusal(hint, list, place),
        Err(ListFault::NoMemory) => hint.cut(),
    }
}

// Why the text at a place of a list is refused.
fn put_name_refusal(hint: &mut Hint, list: &str, place: u64) {
    let name = name_at(list, place);
    hint.begin();
    hint.put("--together: ");
    hint.put_quoted(name);
    hint.put(if is_before(list, place, name) {
        " is listed twice"
    } else {
        " is not a number of the design: the lines of job margin name them"
    });
}

// The text at a place of a list, counted from 0.
fn name_at(list: &str, place: u64) -> &str {
    let mut number = 0u64;
    for name in list.split(',') {
        if number == place {
            return name;
        }
        number = number.saturating_add(1);
    }
    ""
}

// Whether a text is in a list before a place.
fn is_before(list: &str, place: u64, text: &str) -> bool {
    let mut number = 0u64;
    for name in list.split(',') {
        if number < place && name == text {
            return true;
        }
        number = number.saturating_add(1);
    }
    false
}
