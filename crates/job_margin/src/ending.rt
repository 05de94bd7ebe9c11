//! The words of the finding and of the end.

ghost use Rattle.std.specs.Prelude.{◌≡◌};
ghost use Rattle.job_margin.specs.Text.{end_of, finding_word};

use slack_report::EndWord;

/// The word of the finding, according to the word that the network as drawn would end with.
pub fn finding_word(word: EndWord) -> &'static [u8]
    ensures word { result.now ≡ finding_word word }
{
    match word {
        EndWord::Pass | EndWord::Fail => b"consistent",
        EndWord::Inconsistent => b"inconsistent",
        EndWord::Undecided => b"spent",
    }
}

/// The word at the end. It is undecided too where every requirement passes and a search for a margin was left open.
pub fn end_of(word: EndWord, is_left: bool) -> EndWord
    ensures word { result ≡ end_of word is_left }
{
    match word {
        EndWord::Pass if is_left => EndWord::Undecided,
        _ => word,
    }
}
