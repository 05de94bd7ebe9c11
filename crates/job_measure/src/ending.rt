//! The verdict on all rules and requirements.

ghost use Rattle.std.specs.Prelude.{◌≡◌};
ghost use Rattle.std.specs.List.{list_any};
ghost use Rattle.job_measure.specs.Measure.{all_verdict, answer_by, fails, falls_short, is_failing, is_passing};

use crate::line::RunLine;
use crate::tally::RunVerdict;
use job_base::Answer;

/// The verdict on all lines that are judged.
pub fn all_verdict(lines: &[RunLine]) -> RunVerdict
    ensures verdict { result ≡ all_verdict lines.now }
{
    if some_fail(lines) {
        RunVerdict::Fail
    } else if some_fall_short(lines) {
        RunVerdict::Near
    } else {
        RunVerdict::Pass
    }
}

fn some_fail(lines: &[RunLine]) -> bool
    ensures { result ≡ list_any fails lines.now }
{
    lines.iter().any(|line| fails(line))
}

fn some_fall_short(lines: &[RunLine]) -> bool
    ensures { result ≡ list_any falls_short lines.now }
{
    lines.iter().any(|line| falls_short(line))
}

fn fails(line: &RunLine) -> bool
    ensures { result ≡ fails line.now }
{
    line.is_judged && is_failing(line.tally.verdict())
}

fn falls_short(line: &RunLine) -> bool
    ensures { result ≡ falls_short line.now }
{
    line.is_judged && !is_passing(line.tally.verdict())
}

fn is_failing(verdict: RunVerdict) -> bool
    ensures { result ≡ is_failing verdict }
{
    match verdict {
        RunVerdict::Fail => true,
        RunVerdict::Pass | RunVerdict::Near | RunVerdict::Unseen => false,
    }
}

fn is_passing(verdict: RunVerdict) -> bool
    ensures { result ≡ is_passing verdict }
{
    match verdict {
        RunVerdict::Pass => true,
        RunVerdict::Fail | RunVerdict::Near | RunVerdict::Unseen => false,
    }
}

/// What the job answers.
pub fn answer_by(verdict: RunVerdict) -> Answer
    ensures { result ≡ answer_by verdict }
{
    match verdict {
        RunVerdict::Pass => Answer::AllPass,
        RunVerdict::Fail => Answer::SomeFail,
        RunVerdict::Near | RunVerdict::Unseen => Answer::Undecided,
    }
}
