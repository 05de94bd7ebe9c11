//! Lines of words: a line is read word by word, each word whole, and is written word by word. The contract: reading a
//! word or the words of a line gives what the definitions read of the text. A line is put with one space between two
//! words and a line feed after the last word.
#![tactic(auto)]

mod buffer;
mod cut;
pub mod laws;
mod numbers;
mod put;
mod words;

pub use buffer::LineBuffer;
pub use cut::{cut_line, line_len};
pub use numbers::{long_in, number_in, open_in, short_in};
pub use put::{put_spaced, put_words};
pub use words::{behind_word, only_word, split_words, two_words};
