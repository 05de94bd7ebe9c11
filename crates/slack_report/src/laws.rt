//! Laws on the definitions that the contracts of this crate cite. The functions do nothing.

ghost use Rattle.std.specs.Prelude.{◌≡◌, ℕ, List};
ghost use Rattle.slack_report.specs.Entry.{Entry};
ghost use Rattle.slack_report.specs.Order.{BeginsReport, IsReport};
ghost use Rattle.slack_report.specs.Report.{BeginsReportText, IsFirstWrongLine};
ghost use Rattle.slack_report.specs.Text.{report_text};

/// Different reports have different texts.
pub fn report_texts_differ()
    ensures { (entries more : List Entry) → IsReport entries → IsReport more → report_text entries ≡ report_text more → entries ≡ more }
{}

/// The text of lines that begin a report begins the text of a report: from each place, lines lead to the end.
pub fn begun_reports_can_end()
    ensures { (entries : List Entry) → BeginsReport entries → BeginsReportText (report_text entries) }
{}

/// Bytes have at most one first wrong line.
pub fn first_wrong_line_is_one()
    ensures { (bytes : List ℕ) (line other : ℕ) → IsFirstWrongLine bytes line → IsFirstWrongLine bytes other → line ≡ other }
{}
