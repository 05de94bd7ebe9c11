//! Reports: their lines as items, the text of each line, and reading a text back line by line. The words of rows, bounds and verdicts
//! can be put by themselves too, for lines of other texts.
//! The contract: `write_item` writes the text of an item. `read_report` reads a report from its text, or returns the
//! first line at which no report can continue.
#![tactic(auto)]

mod add_words;
mod fault;
mod item;
mod items;
pub mod laws;
mod order;
mod owned;
mod place;
mod put_words;
mod read;
mod read_list;
mod read_word;
mod report;
mod step;
mod words;
mod write;

pub use add_words::{
    add_bound, add_ending, add_number, add_piece, add_range, add_signed, add_spaced, add_verdict,
};
pub use fault::ReportFault;
pub use item::Item;
pub use items::Items;
pub use place::{Place, Spot};
pub use put_words::{put_asked, put_bound_words, put_range, put_verdict_words};
pub use read_list::{flags_in, longs_in};
pub use report::{Report, read_report};
pub use words::{EndWord, Which, which_word};
pub use write::{LINE_ROOM, write_item};
