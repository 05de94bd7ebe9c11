//! How a job ends when all of its text is written.

ghost use Rattle.std.specs.Prelude.{◌≡◌};
ghost use Rattle.job_base.specs.Ending.{answer_of};

use slack_report::EndWord;

/// How a job ends when all of its text is written.
#[derive(Clone, Copy)]
pub enum Answer {
    /// No line of the text is bad news.
    AllPass,
    /// Some requirement is broken, or job lint has a line to print.
    SomeFail,
    /// No times satisfy the network.
    Inconsistent,
    /// The budget ended a search, and no requirement is known to be broken.
    Undecided,
    /// The job refuses the report that it was to check.
    CheckRefused,
    /// The job refuses the design for what its search found, and has written the line that says so.
    DesignRefused,
}

/// What a job answers, according to the word at the end of its text.
pub fn answer_of(word: EndWord) -> Answer
    ensures { result ≡ answer_of word }
{
    match word {
        EndWord::Pass => Answer::AllPass,
        EndWord::Fail => Answer::SomeFail,
        EndWord::Inconsistent => Answer::Inconsistent,
        EndWord::Undecided => Answer::Undecided,
    }
}
