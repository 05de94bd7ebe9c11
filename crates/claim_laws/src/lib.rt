//! The laws behind the claim of `itv FILE`: which task one word asks for, which network a lone sheet draws, and what may be
//! relied on in the text of a report. The laws are theorems without code.
#![tactic(auto)]

mod laws;

pub use laws::{lone_is_read, plain_word, right_text_is_so, rows_have_lines};
