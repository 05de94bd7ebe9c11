//! The limits of a design.

use crate::hint::Hint;
use unroll::{Limit, UnrollFault};

/// Puts why a design is too large.
pub fn put_limit_fault(hint: &mut Hint, fault: UnrollFault) {
    match fault {
        UnrollFault::TooMany { limit, count } => put_too_many(hint, limit, count),
        UnrollFault::NoMemory => hint.cut(),
    }
}

/// Puts that a design has so many of what is limited.
pub fn put_too_many(hint: &mut Hint, limit: Limit, count: u128) {
    hint.put("the design has ");
    hint.put_count(count);
    hint.put(" ");
    hint.put(words_of(limit));
    hint.put(" (limit ");
    put_grouped(hint, limit.most());
    hint.put(")");
}

// Puts a number below 10^15 with commas between its groups of three digits.
fn put_grouped(hint: &mut Hint, number: u64) {
    let mut has_begun = false;
    for unit in [1_000_000_000_000, 1_000_000_000, 1_000_000, 1_000, 1] {
        let group = number / unit % 1_000;
        if has_begun {
            put_group(hint, group);
        } else if group > 0 || unit == 1 {
            hint.put_count(u128::from(group));
            has_begun = true;
        }
    }
}

// Puts a group of three digits after a comma.
fn put_group(hint: &mut Hint, group: u64) {
    hint.put(",");
    for digit in [group / 100, group / 10 % 10, group % 10] {
        hint.put_count(u128::from(digit));
    }
}

// What is limited.
fn words_of(limit: Limit) -> &'static str {
    match limit {
        Limit::Events => "events, counting the marks of all parts in all cycles",
        Limit::Constraints => "rules over all cycles, counting those of lanes and nets",
        Limit::Rows => "questions and requirements over all cycles",
        Limit::Cells => "events times rows",
        Limit::SearchCells => "events times rules of several causes",
        Limit::MatrixEvents => "events for job matrix",
        Limit::SessionRows => "questions and requirements for job whatif",
        Limit::Numbers => "numbers with a range for job margin",
    }
}
