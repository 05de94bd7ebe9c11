//! The names of the sheets that parts are drawn on.

ghost use Rattle.std.specs.Prelude.{◌≡◌, IfOk, OnOk};
ghost use Rattle.std.specs.List.{list_any};
ghost use Rattle.std.specs.Str.{bytes_eq};
ghost use Rattle.netlist.specs.Netlist.{sheet_names, with_name};

use crate::part::Part;
use itv_base::{NoMemory, Text, Texts};
use std::alloc::Global;

/// The distinct names of the parts' sheets in the order of first mention.
pub fn names_of_sheets(alloc: Global, parts: &[Part]) -> Result<Texts, NoMemory>
    ensures { IfOk result (λ names. names ≡ sheet_names parts.now) }
{
    let mut names = Texts::new(alloc)?;
    for part in parts {
        push_name(alloc, &mut names, &part.sheet)?;
    }
    Ok(names)
}

// Puts a name at the end, if it is new.
fn push_name(alloc: Global, names: &mut Texts, name: &Text) -> Result<(), NoMemory>
    ensures { OnOk result (names.new ≡ with_name names.old name.now) }
{
    if is_among(names, name) {
        return Ok(());
    }
    names.push(alloc, name.as_text())
}

fn is_among(names: &Texts, name: &Text) -> bool
    ensures { result ≡ list_any (bytes_eq name.now) names.now }
{
    for k in 0..names.len() {
        if *name == *names.get(k) {
            return true;
        }
    }
    false
}
