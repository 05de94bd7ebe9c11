//! The result of a report.

use slack_report::EndWord;

/// The result of a report: its end, and how many requirements pass, fail and are left undecided.
#[derive(Clone, Copy)]
pub struct Summary {
    pub end: EndWord,
    pub passes: u32,
    pub fails: u32,
    pub undecided: u32,
}
