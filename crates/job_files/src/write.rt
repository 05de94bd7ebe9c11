//! Writing the names of files.

ghost use Rattle.std.specs.Prelude.{◌≡◌, IfOk, string_bytes};
ghost use Rattle.job_base.specs.JobWrote.{Answered, JobWrote};
ghost use Rattle.job_files.specs.Files.{AnswersFiles, files_text};

use itv_base::{NoMemory, Sink, Texts};
use job_base::{Answer, Unanswered};
use std::alloc::Global;

/// Writes each name on a line, in order, by one put. A name is written as it is, so a name with a line end takes more than one line.
pub fn write_files<K: Sink>(
    alloc: Global,
    names: &Texts,
    sink: &mut K,
) -> Result<Answer, Unanswered>
    ensures works { JobWrote (AnswersFiles names.now) (Answered (AnswersFiles names.now))
        (K.state sink.old) (K.state sink.new) result }
{
    let text = lines_of(alloc, names)?;
    sink.put(text.as_bytes())?;
    Ok(Answer::AllPass)
}

// The names with a line end after each.
fn lines_of(alloc: Global, names: &Texts) -> Result<String, NoMemory>
    ensures { IfOk result (λ text. string_bytes text ≡ files_text names.now) }
{
    let mut text = String::new(alloc);
    for k in 0..names.len() {
        text.push_str(names.get(k).as_text())?;
        text.push_str("\n")?;
    }
    Ok(text)
}
