//! Job lint: what in a design may say something else than was meant. The contract of the crate: `write_lint` writes lines of warnings of the
//! drawing, and then just the lines of what is found of its times, except for those that are meant. If a put failed, the beginning of these lines
//! was written.
#![tactic(auto)]

mod apart;
mod by_order;
mod designing;
mod drawn_at;
mod driven_periods;
mod ends;
mod finding;
mod kept;
pub mod laws;
mod line;
mod lines;
mod lint_found;
mod looking;
mod meant;
mod own_periods;
mod pair_seen;
mod parts;
mod piece;
mod printed;
mod put_line;
mod put_piece;
mod put_text;
mod put_told;
mod resting;
mod row_seen;
mod rows;
mod said;
mod turns;
mod write;

pub use meant::is_warning_meant;
pub use write::write_lint;
