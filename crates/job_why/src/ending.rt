//! The word at the end.

ghost use Rattle.std.specs.Prelude.{◌≡◌, ℕ, length, map};
ghost use Rattle.right_report.specs.Right.ReportState.{tally_of};
ghost use Rattle.right_report.specs.RowTally.{kinds_of, with_rows};
ghost use Rattle.explanations.specs.Answers.{AreFound, both_of};
ghost use Rattle.job_why.specs.Text.{ending_of};

use crate::bound::both_of;
use drawn_networks::DrawnNetwork;
use explanations::{Finding, RowFound};
use job_base::row_at;
use requirements::Consistency;
use right_report::ReportTally;
use slack_report::EndWord;

/// The word at the end, according to what was found of the network and of each row.
pub fn ending_of(drawn: &DrawnNetwork, finding: &Finding, found: &[RowFound]) -> EndWord
    requires found { (budget : ℕ) × AreFound drawn.now budget finding.now found.now }
    ensures word { result ≡ ending_of drawn.now.rows finding.now found.now }
{
    match finding {
        Finding::Consistent => tally_rows(Consistency::Consistent, drawn, found).end_word(),
        Finding::Inconsistent(_) => EndWord::Inconsistent,
        Finding::Open => tally_rows(Consistency::Open, drawn, found).end_word(),
    }
}

// The tally of all rows after a finding.
fn tally_rows(word: Consistency, drawn: &DrawnNetwork, found: &[RowFound]) -> ReportTally
    requires count { length found.now ≡ length drawn.now.rows }
    ensures tally { result ≡ with_rows (tally_of word) (kinds_of drawn.now.rows) (map both_of found.now) }
{
    let mut tally = ReportTally::new(word);
    for number in 0..drawn.rows().len() as u32 {
        let row = row_at(drawn, number);
        let both = both_of(&found[number as usize]);
        tally = tally.with_row(row.kind, &both);
    }
    tally
}
