//! Laws: how the drawing of a counterexample is read again. The text that `redraw` writes for a row is UTF-8 and short enough for a
//! file. It is read as a JSON tree that is no netlist, and then without a fault as a sheet with a mark for each drawn event and with
//! the row's demand (`read_laws`). If a file has this text, reading a design with the name of that file ends without a refusal. Only
//! the drawn times, up to one number, satisfy its network, and it has the row's demand (`design_laws`).
#![tactic(auto)]

pub mod design_laws;
pub mod read_laws;
