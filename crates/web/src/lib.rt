//! The calls that a page makes: a run on words and files that are handed over as bytes, and what is said to a person after it. What they write goes
//! into the page's own room. Nothing is claimed of what is said.
#![tactic(auto)]

mod given;
mod handed;
mod reason;

ghost use Rattle.std.specs.Prelude.{◌≡◌, ◌≢◌};
ghost use Rattle.web.specs.Given.{IsFit, given_of};
ghost use Rattle.web.specs.Answered.{IsAnswered};

use crate::given::{is_fit, shelf_of, texts_of};
use crate::handed::{answer, hand_over};
use crate::reason::reason_of;
use itv_base::NoMemory;
use itv_cli::Outcome;
use std::alloc::Global;

/// The status where what is handed over is not fit, so nothing ran. It is the status of no outcome of a run.
pub const UNFIT: u8 = 254;

/// The status where a run wrote more than there is room for. It is the status of no outcome of a run.
pub const NO_ROOM: u8 = 255;

/// Runs on words over files, and returns the status of the run's end. What the run writes is put at the front of `out`, and its length in bytes
/// into `wrote`.
///
/// The words, the names of the files and their contents come as all their bytes one after another, and the size of each piece in bytes. The words are those
/// after the program's name. Words and names are texts in UTF-8. Each name has a content. At one name twice, the later content is the file's.
///
/// The status is [`UNFIT`] if and only if what is handed over is not so. Nothing is read or written then. It is [`NO_ROOM`] if the run wrote more bytes
/// than `out` has, and nothing is handed over then. Any other status is that of an outcome.
#[unsafe(no_mangle)]
pub extern "C" fn itv_run(
    alloc: Global,
    words: &[u8],
    word_sizes: &[u32],
    names: &[u8],
    name_sizes: &[u32],
    files: &[u8],
    file_sizes: &[u32],
    out: &mut [u8],
    wrote: &mut u32,
) -> u8
    ensures answered { IsAnswered (given_of words.now word_sizes.now names.now name_sizes.now files.now file_sizes.now)
        result wrote.new out.new }
    ensures fit { IsFit (given_of words.now word_sizes.now names.now name_sizes.now files.now file_sizes.now)
        → result ≢ UNFIT }
{
    *wrote = 0;
    if !is_fit(words, word_sizes, names, name_sizes, files, file_sizes) {
        return UNFIT;
    }
    let texts = match texts_of(alloc, words, word_sizes) {
        Ok(texts) => texts,
        Err(NoMemory) => return Outcome::NoMemory.code(),
    };
    match shelf_of(alloc, names, name_sizes, files, file_sizes) {
        Ok(mut shelf) => answer(alloc, &texts, &mut shelf, out, wrote),
        Err(NoMemory) => Outcome::NoMemory.code(),
    }
}

/// Puts what is said to a person after a run with a status at the front of `out`, and its length in bytes into `wrote`. Each line begins with
/// `FILE:LINE:COLUMN: ` or with `itv: `. Nothing to say is an empty text.
///
/// All else is as in [`itv_run`], whose run it was. The status is [`UNFIT`], [`NO_ROOM`], that of [`Outcome::NoMemory`], or else 0.
#[unsafe(no_mangle)]
pub extern "C" fn itv_reason(
    alloc: Global,
    words: &[u8],
    word_sizes: &[u32],
    names: &[u8],
    name_sizes: &[u32],
    files: &[u8],
    file_sizes: &[u32],
    status: u8,
    out: &mut [u8],
    wrote: &mut u32,
) -> u8 {
    *wrote = 0;
    if !is_fit(words, word_sizes, names, name_sizes, files, file_sizes) {
        return UNFIT;
    }
    let texts = match texts_of(alloc, words, word_sizes) {
        Ok(texts) => texts,
        Err(NoMemory) => return Outcome::NoMemory.code(),
    };
    let listed = match texts_of(alloc, names, name_sizes) {
        Ok(listed) => listed,
        Err(NoMemory) => return Outcome::NoMemory.code(),
    };
    let mut shelf = match shelf_of(alloc, names, name_sizes, files, file_sizes) {
        Ok(shelf) => shelf,
        Err(NoMemory) => return Outcome::NoMemory.code(),
    };
    match reason_of(alloc, &texts, status, &listed, &mut shelf) {
        Ok(said) => hand_over(Outcome::AllPass, said.as_bytes(), out, wrote),
        Err(NoMemory) => Outcome::NoMemory.code(),
    }
}
