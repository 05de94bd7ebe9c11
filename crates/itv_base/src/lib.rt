//! What every crate of the verifier uses: limits, ranges of delays, names, texts and the numbers in them, and the
//! outside. The contract of the outside: a fetch gives the first bytes of the file, if contracts see the files, and a
//! put appends its piece. Each fails only if its count of faults rose in the call. A failed fetch leaves its name as
//! the last that failed.
#![tactic(auto)]

mod characters;
mod decimal;
mod limits;
mod listing;
mod names;
mod range;
mod row_kind;
mod scan;
mod shelf;
mod shelf_dir;
mod shelf_mem;
mod sink;
mod sink_mem;
mod sink_out;
mod text;
mod texts;

pub use characters::{is_mark, is_name, is_name_byte};
pub use decimal::{end_text, is_numeral, number_text, signed_text, value_up_to};
pub use limits::{
    DEFAULT_BUDGET, END_LIMIT, FILE_LIMIT, MAX_BUDGET, MAX_CAUSES, MAX_CELLS, MAX_CONSTRAINTS,
    MAX_CYCLES, MAX_EVENTS, MAX_MATRIX_EVENTS, MAX_NAME_LEN, MAX_PARTS, MAX_ROWS, MAX_SEARCH_CELLS,
    MAX_SELF_SIZE, MAX_SHEET_NAMES, MAX_SHIFT, REPORT_LIMIT,
};
pub use listing::Listing;
pub use names::{EdgeName, EventId, EventName, RuleKind, Side};
pub use range::{Range, RangeFault};
pub use row_kind::RowKind;
pub use scan::{split_digits, split_name, strip};
pub use shelf::{FetchFault, Shelf};
pub use shelf_dir::ShelfDir;
pub use shelf_mem::ShelfMem;
pub use sink::{PutFailed, Sink, put_all};
pub use sink_mem::SinkMem;
pub use sink_out::SinkOut;
pub use text::{NoMemory, Text};
pub use texts::{Texts, copied_texts};
