//! The limits of the program. Each number is allowed, and the next one is refused. Definitions and contracts cite the
//! limits by name. The end of this file states each number again, so that a limit is changed in two places or not at
//! all.

/// Bytes of a design file or a sheet file.
pub const FILE_LIMIT: u32 = 4_194_304;

/// Bytes of a report that is given to be checked.
pub const REPORT_LIMIT: u32 = 67_108_864;

/// Parts of a netlist.
pub const MAX_PARTS: u64 = 256;

/// Distinct sheet names of a netlist.
pub const MAX_SHEET_NAMES: u64 = 64;

/// Cycles of a netlist.
pub const MAX_CYCLES: u32 = 256;

/// Characters of the name of a part, and of a tag.
pub const MAX_NAME_LEN: usize = 16;

/// Cycles by which the from-event of a label may be earlier than its to-event.
pub const MAX_SHIFT: u32 = 64;

/// Causes of one latest or earliest constraint.
pub const MAX_CAUSES: usize = 64;

/// Picoseconds of a finite end of a range, in absolute value.
pub const END_LIMIT: i64 = 10_000_000_000_000;

/// Events of a network.
pub const MAX_EVENTS: u32 = 16_384;

/// Constraints of a network.
pub const MAX_CONSTRAINTS: u32 = 65_536;

/// Rows of a report.
pub const MAX_ROWS: u32 = 4_096;

/// Events times rows.
pub const MAX_CELLS: u64 = 1_000_000;

/// The number of events times one more than the number of constraints with two or more causes.
pub const MAX_SEARCH_CELLS: u64 = 2_097_152;

/// Events of a matrix of all pairs.
pub const MAX_MATRIX_EVENTS: u32 = 1_024;

/// Cases that one search may close.
pub const MAX_BUDGET: u64 = 1_000_000_000;

/// Cases that one search may close if the words name no number.
pub const DEFAULT_BUDGET: u64 = 100_000;

/// The size of the generated design.
pub const MAX_SELF_SIZE: u32 = 64;

const _: () = prove!(FILE_LIMIT == 4 * 1_024 * 1_024);

const _: () = prove!(REPORT_LIMIT == 64 * 1_024 * 1_024);

const _: () = prove!(MAX_PARTS == 256);

const _: () = prove!(MAX_SHEET_NAMES == 64);

const _: () = prove!(MAX_CYCLES == 256);

const _: () = prove!(MAX_NAME_LEN == 16);

const _: () = prove!(MAX_SHIFT == 64);

const _: () = prove!(MAX_CAUSES == 64);

const _: () = prove!(END_LIMIT == 10_000_000 * 1_000_000);

const _: () = prove!(MAX_EVENTS == 16 * 1_024);

const _: () = prove!(MAX_CONSTRAINTS == 64 * 1_024);

const _: () = prove!(MAX_ROWS == 4 * 1_024);

const _: () = prove!(MAX_CELLS == 1_000 * 1_000);

const _: () = prove!(MAX_SEARCH_CELLS == 2 * 1_024 * 1_024);

const _: () = prove!(MAX_MATRIX_EVENTS == 1_024);

const _: () = prove!(MAX_BUDGET == 1_000 * 1_000 * 1_000);

const _: () = prove!(DEFAULT_BUDGET == 100 * 1_000);

const _: () = prove!(MAX_SELF_SIZE == 64);
