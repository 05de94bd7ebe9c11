//! The program around a run: the words of the system, its files and its output, and the status of the run's end.

ghost use Rattle.std.specs.Prelude.{◌≡◌, IfOk, MatchResult, drop, map, string_bytes};
ghost use Rattle.std.specs.Vec.Iter.{into_iter_items};
ghost use Rattle.std.specs.IoError.{error_kind};
ghost use Rattle.std.specs.Process.{exit_status};
ghost use Rattle.itv_cli.specs.Run.{OutcomeMeans, call_of};
ghost use Rattle.itv_cli.specs.Status.{EndsWith, HasNoWords, HasRun, code_of, status_without_words};

use crate::outcome::Outcome;
use crate::top::run;
use itv_base::{NoMemory, Shelf, ShelfDir, Sink, SinkOut, Texts};
use std::alloc::Global;
use std::env::{Args, Env};
use std::io::ErrorKind;
use std::process::ExitCode;
use std::rt::Files;
use std::{env, io};

// The status where the system does not give the words.
const NO_WORDS: u8 = 10;

/// The whole program: a run on the words of the system, its files and its standard output, and the status of the run's end. It hands
/// them to [`run_words`], whose contract says what happens with them. It is not proved that it hands on these and no others.
pub fn program<R: Env + Files + Print + AllocGlobal>(rt: &R) -> ExitCode
    ensures status { EndsWith (exit_status result) }
{
    match ShelfDir::new(rt.alloc(), rt) {
        Ok(mut shelf) => run_words(rt.alloc(), env::args(rt), &mut shelf, &mut SinkOut::new(rt)),
        Err(NoMemory) => status_of(Outcome::NoMemory),
    }
}

/// Runs on the words that a system gives except the first, on a shelf and a sink, and returns the status of the run's end. Nothing else is read
/// or written. If the system gives an error in place of the words, nothing is read or written. The status is then 10, or the status of
/// [`Outcome::NoMemory`] if the system lacks the memory for the words.
pub fn run_words<H: Shelf, K: Sink>(
    alloc: Global,
    args: io::Result<Args<Global>>,
    shelf: &mut H,
    sink: &mut K,
) -> ExitCode
    ensures status { MatchResult args
        (λ given. HasRun (call_of (drop 1 (map string_bytes (into_iter_items given)))
        (H.state shelf.old) (H.state shelf.new) (K.state sink.old) (K.state sink.new)) (exit_status result))
        (λ error. HasNoWords (error_kind error)
        (H.state shelf.old) (H.state shelf.new) (K.state sink.old) (K.state sink.new) (exit_status result)) }
{
    match args {
        Ok(given) => {
            let outcome = run_given(alloc, given, shelf, sink);
            status_of(outcome)
        }
        Err(error) => status_without_words(&error),
    }
}

// The run on the words after the first word.
fn run_given<H: Shelf, K: Sink>(
    alloc: Global,
    given: Args<Global>,
    shelf: &mut H,
    sink: &mut K,
) -> Outcome
    ensures means { OutcomeMeans (call_of (drop 1 (map string_bytes (into_iter_items given)))
        (H.state shelf.old) (H.state shelf.new) (K.state sink.old) (K.state sink.new)) result }
{
    match words_of(alloc, given) {
        Ok(words) => run(alloc, &words, shelf, sink),
        Err(NoMemory) => Outcome::NoMemory,
    }
}

// The status of the end of a run.
fn status_of(outcome: Outcome) -> ExitCode
    ensures { exit_status result ≡ code_of outcome }
{
    ExitCode::from(outcome.code())
}

// The status where the system does not give the words.
fn status_without_words(error: &io::Error) -> ExitCode
    ensures { exit_status result ≡ status_without_words (error_kind error.now) }
{
    match error.kind() {
        ErrorKind::OutOfMemory => status_of(Outcome::NoMemory),
        _ => ExitCode::from(NO_WORDS),
    }
}

/// The words after the program's name.
pub fn words_of(alloc: Global, args: Args<Global>) -> Result<Texts, NoMemory>
    ensures words { IfOk result (λ words. words ≡ drop 1 (map string_bytes (into_iter_items args))) }
{
    let mut rest = args;
    match rest.next() {
        Some(_) => texts_of(alloc, rest),
        None => Texts::new(alloc),
    }
}

// Copies of the words that are left.
fn texts_of(alloc: Global, args: Args<Global>) -> Result<Texts, NoMemory>
    ensures { IfOk result (λ texts. texts ≡ map string_bytes (into_iter_items args)) }
{
    let mut rest = args;
    let mut texts = Texts::new(alloc)?;
    while let Some(word) = rest.next() {
        texts.push(alloc, word.as_str())?;
    }
    Ok(texts)
}
