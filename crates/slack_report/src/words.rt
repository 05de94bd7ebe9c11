//! Words of a report's lines: kinds of bounds, and ends.

ghost use Rattle.std.specs.Prelude.{◌≡◌};
ghost use Rattle.slack_report.specs.Text.{which_word};

/// Which separation of a pair is bounded: the greatest or the least.
#[derive(Clone, Copy, PartialEq, Eq)]
pub enum Which {
    Max,
    Min,
}

/// The word of a kind of bound.
pub fn which_word(which: Which) -> &'static str
    ensures { result.now ≡ which_word which }
{
    match which {
        Which::Max => "max",
        Which::Min => "min",
    }
}

/// How a report ends.
#[derive(Clone, Copy)]
pub enum EndWord {
    Pass,
    Fail,
    Inconsistent,
    Undecided,
}
