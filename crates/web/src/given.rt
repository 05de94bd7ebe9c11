//! What a page hands over: words, and files by their names.

ghost use Rattle.std.specs.Prelude.{◌≡◌, ◌↔◌, [], ◌∷◌, ◌++◌, IsTrue, IfOk, OnOk, All, IsUtf8, length};
ghost use Rattle.std.specs.FinMap as map;
ghost use Rattle.web.specs.Given.{AreAll, AreTexts, IsFit, cut, filed, given_of};

use itv_base::{NoMemory, ShelfMem, Texts};
use std::alloc::Global;
use std::str;

/// Whether the words and the names are texts, the pieces are all of the bytes, and each name has a content.
pub fn is_fit(
    words: &[u8],
    word_sizes: &[u32],
    names: &[u8],
    name_sizes: &[u32],
    files: &[u8],
    file_sizes: &[u32],
) -> bool
    ensures { IsTrue result
        ↔ IsFit (given_of words.now word_sizes.now names.now name_sizes.now files.now file_sizes.now) }
{
    are_texts(words, word_sizes)
        && are_texts(names, name_sizes)
        && are_all(files, file_sizes)
        && name_sizes.len() == file_sizes.len()
}

// Whether pieces of these sizes are all of the bytes, and each piece is a text.
fn are_texts(bytes: &[u8], sizes: &[u32]) -> bool
    ensures { IsTrue result ↔ AreTexts sizes.now bytes.now }
{
    are_all(bytes, sizes) && is_each_text(bytes, sizes)
}

// Whether pieces of these sizes are all of the bytes.
fn are_all(bytes: &[u8], sizes: &[u32]) -> bool
    ensures { IsTrue result ↔ AreAll sizes.now bytes.now }
{
    let mut left = bytes.len();
    for size in sizes {
        let size = *size as usize;
        if size > left {
            return false;
        }
        left -= size;
    }
    left == 0
}

// Whether each of the pieces is a text.
fn is_each_text(bytes: &[u8], sizes: &[u32]) -> bool
    requires { AreAll sizes.now bytes.now }
    ensures { IsTrue result ↔ All IsUtf8 (cut sizes.now bytes.now) }
{
    let mut left = bytes;
    for size in sizes {
        let (piece, more) = left.split_at(*size as usize);
        match str::from_utf8(piece) {
            Ok(_) => left = more,
            Err(_) => return false,
        }
    }
    true
}

/// The pieces of these sizes, as texts.
pub fn texts_of(alloc: Global, bytes: &[u8], sizes: &[u32]) -> Result<Texts, NoMemory>
    requires { AreTexts sizes.now bytes.now }
    ensures pieces { IfOk result (λ texts. texts ≡ cut sizes.now bytes.now) }
{
    let mut texts = Texts::new(alloc)?;
    let mut left = bytes;
    for size in sizes {
        let (piece, more) = left.split_at(*size as usize);
        push_text(alloc, piece, &mut texts)?;
        left = more;
    }
    Ok(texts)
}

// Puts a piece at the end of the texts.
fn push_text(alloc: Global, piece: &[u8], texts: &mut Texts) -> Result<(), NoMemory>
    requires { IsUtf8 piece.now }
    ensures ok { OnOk result (texts.new ≡ texts.old ++ piece.now ∷ []) }
{
    match str::from_utf8(piece) {
        Ok(text) => texts.push(alloc, text),
        Err(_) => unreachable!(),
    }
}

/// A shelf with these contents under these names.
pub fn shelf_of(
    alloc: Global,
    names: &[u8],
    name_sizes: &[u32],
    files: &[u8],
    file_sizes: &[u32],
) -> Result<ShelfMem, NoMemory>
    requires names { AreTexts name_sizes.now names.now }
    requires contents { AreAll file_sizes.now files.now }
    requires as_many { length name_sizes.now ≡ length file_sizes.now }
    ensures files { IfOk result (λ shelf. shelf
        ≡ record { files = filed map.empty (cut name_sizes.now names.now) (cut file_sizes.now files.now); failing = []; calls = 0; faults = 0; last = [] }) }
{
    let mut shelf = ShelfMem::new(alloc)?;
    let mut names_left = names;
    let mut files_left = files;
    for k in 0..name_sizes.len() {
        let (name, more_names) = names_left.split_at(name_sizes[k] as usize);
        let (content, more_files) = files_left.split_at(file_sizes[k] as usize);
        add_file(alloc, name, content, &mut shelf)?;
        names_left = more_names;
        files_left = more_files;
    }
    Ok(shelf)
}

// Sets the file of a name.
fn add_file(
    alloc: Global,
    name: &[u8],
    content: &[u8],
    shelf: &mut ShelfMem,
) -> Result<(), NoMemory>
    requires { IsUtf8 name.now }
    ensures ok { OnOk result (shelf.new
        ≡ record shelf.old { files = map.insert shelf.old.files name.now content.now }) }
{
    match str::from_utf8(name) {
        Ok(name) => shelf.add(alloc, name, content),
        Err(_) => unreachable!(),
    }
}
