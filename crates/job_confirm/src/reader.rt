//! Reading the lines of a text, one after another.

ghost use Rattle.std.specs.Prelude.{◌≡◌, ◌∷◌, ◌↔◌, ◌≤◌, ℕ, ℤ, [], All, Bool, IfOk, IfSome, IsFalse, IsSomeAnd, IsTrue, List, Some, codes, drop, length, map, option_map};
ghost use Rattle.std.specs.Str.{IsUtf8};
ghost use Rattle.itv_base.specs.Numerals.{signed_text};
ghost use Rattle.line_words.specs.Lines.{ended};
ghost use Rattle.line_words.specs.Numbers.{IsLong, long_in};
ghost use Rattle.line_words.specs.Views.{texts};
ghost use Rattle.line_words.specs.Words.{Word, keyed, many, one};
ghost use Rattle.falling.specs.declared.view.View.{View};
ghost use Rattle.edge_clauses.specs.Lines.{ClauseLine};
ghost use Rattle.edge_clauses.specs.Proofs.{line_of};
ghost use Rattle.clause_texts.specs.Text.{SpellsClause, claim_text, view_text};
ghost use Rattle.slack_report.specs.Reading.{flags_in};
ghost use Rattle.slack_report.specs.Text.{members_from, which_word};
ghost use Rattle.job_confirm.specs.Step.{Begins, BeginsWith, Gives, IsCutAs};

use crate::check_stop::CheckStop;
use certificate::LineFault;
use clause_texts::{read_claim, read_clause_line, read_view};
use edge_clauses::{Claim, StoredLine};
use falling::View;
use itv_base::NoMemory;
use line_words::{behind_word, line_len, long_in, only_word, split_words};
use slack_report::{Which, flags_in, longs_in, which_word};
use std::alloc::Global;

/// The rest of a text, from a line on. What the reader gives is a line that a writer can write. Writing it again
/// shows whether it was written so.
#[derive(Drop)]
pub struct Reader<'a> {
    rest: &'a [u8],
}

impl<'a> Reader<'a> {
    /// A reader from a place of a text on.
    pub fn new(text: &'a [u8], place: usize) -> Reader<'a>
        ensures rest { place ≤ length text.now → result.rest.now ≡ drop place text.now }
    {
        Reader {
            rest: text.get(place..).unwrap_or(b""),
        }
    }

    /// How many bytes are left. There are at most as many lines.
    pub fn left(&self) -> usize
        ensures left { result ≡ length self.now.rest.now }
    {
        self.rest.len()
    }

    /// The refusal of the line that stands next, or of the end if no line does.
    pub fn refused(&self) -> CheckStop {
        CheckStop::Refused { left: self.left() }
    }

    /// Goes past the line that stands next.
    pub fn pass(&mut self)
        ensures passed { (line more : List ℕ) → Begins self.old.rest.now line more → self.new.rest.now ≡ more }
    {
        self.rest = after_line(self.rest);
    }

    /// Whether this line stands next. If it does, goes past it.
    pub fn passes(&mut self, line: &[u8]) -> bool
        ensures stands { (next more : List ℕ) → Begins self.old.rest.now next more → IsTrue result ↔ (next ≡ line.now) }
        ensures passed { (next more : List ℕ) → Begins self.old.rest.now next more → IsTrue result → self.new.rest.now ≡ more }
        ensures stays { IsFalse result → self.new.rest.now ≡ self.old.rest.now }
    {
        if !self.stands(line) {
            return false;
        }
        self.pass();
        true
    }

    // Whether this line stands next.
    fn stands(&self, line: &[u8]) -> bool
        ensures stands { (next more : List ℕ) → Begins self.now.rest.now next more → IsTrue result ↔ (next ≡ line.now) }
    {
        match next_line(self.rest) {
            Some(next) => next == line,
            None => false,
        }
    }

    /// The line that stands next, if it is a line of a proof.
    pub fn clause(&self, alloc: Global) -> Result<Option<StoredLine>, NoMemory>
        ensures some { (text more : List ℕ) → Begins self.now.rest.now text more → IfOk result (λ o. IfSome o (λ line. SpellsClause text (line_of line))) }
        ensures read { (text more : List ℕ) → (line : ClauseLine) → Begins self.now.rest.now text more → SpellsClause text line
            → IfOk result (λ o. IsSomeAnd o (λ read. line_of read ≡ line)) }
    {
        match next_line(self.rest) {
            Some(line) => clause_in(alloc, line),
            None => Ok(None),
        }
    }

    /// The view that stands next, at the front of a proof.
    pub fn view(&self) -> Result<View, CheckStop>
        ensures read { (text more : List ℕ) → (view : View) → Begins self.now.rest.now text more → ended text ≡ view_text view → Gives (λ found. found ≡ view) result }
    {
        match view_in(self.rest) {
            Some(view) => Ok(view),
            None => Err(self.refused()),
        }
    }

    /// The claim that stands next, in picoseconds.
    pub fn claim(&self) -> Result<Claim, CheckStop>
        ensures read { (text more : List ℕ) → (claim : ℤ) → Begins self.now.rest.now text more → ended text ≡ claim_text claim → IsLong claim
            → Gives (λ found. found.value ≡ claim) result }
        ensures fits { IfOk result (λ found. IsLong found.value) }
    {
        match claim_in(self.rest) {
            Some(claim) => Ok(claim),
            None => Err(self.refused()),
        }
    }

    /// The number of the bound that stands next, in picoseconds.
    pub fn number(&self, alloc: Global, which: Which) -> Result<i64, CheckStop>
        ensures read { (value : ℤ) → (more : List ℕ) → BeginsWith self.now.rest.now (which_word which ∷ signed_text value ∷ []) more → IsLong value
            → Gives (λ found. found ≡ value) result }
    {
        let words = self.words(alloc)?;
        match number_behind(&words, which_word(which)) {
            Some(value) => Ok(value),
            None => Err(self.refused()),
        }
    }

    /// The times that stand next, in picoseconds.
    pub fn times(&self, alloc: Global) -> Result<Vec<i64>, CheckStop>
        ensures read { (times : List ℤ) → (more : List ℕ) → BeginsWith self.now.rest.now (codes "times" ∷ map signed_text times) more → All IsLong times
            → Gives (λ found. found.items ≡ times) result }
    {
        let words = self.words(alloc)?;
        match times_in(alloc, &words)? {
            Some(times) => Ok(times),
            None => Err(self.refused()),
        }
    }

    /// For each event whether it is in the set to raise that stands next.
    pub fn raised(&self, alloc: Global, events: u32) -> Result<Vec<bool>, CheckStop>
        ensures read { (set : List Bool) → (more : List ℕ) → BeginsWith self.now.rest.now (codes "raise" ∷ members_from 0 set) more → length set ≡ events
            → Gives (λ found. found.items ≡ set) result }
    {
        let words = self.words(alloc)?;
        match raised_in(alloc, events, &words)? {
            Some(set) => Ok(set),
            None => Err(self.refused()),
        }
    }

    // The words of the line that stands next.
    fn words(&self, alloc: Global) -> Result<Vec<&'a str>, CheckStop>
        ensures words { (words : List Word) → (more : List ℕ) → BeginsWith self.now.rest.now words more → Gives (λ found. texts found.items ≡ words) result }
    {
        match text_line(self.rest) {
            Some(line) => Ok(split_words(alloc, line)?),
            None => Err(self.refused()),
        }
    }
}

// The first line of a text without its end, and the text after it. None if no line ends.
fn cut_line(text: &[u8]) -> Option<(&[u8], &[u8])>
    ensures cut { (line more : List ℕ) → Begins text.now line more → IsCutAs result line more }
{
    let len = line_len(text);
    if len == text.len() {
        return None;
    }
    Some((&text[..len], &text[len + 1..]))
}

// The first line of a text without its end.
fn next_line(text: &[u8]) -> Option<&[u8]>
    ensures next { (line more : List ℕ) → Begins text.now line more → IsSomeAnd result (λ next. next.now ≡ line) }
{
    match cut_line(text) {
        Some((line, _)) => Some(line),
        None => None,
    }
}

// The text after its first line.
fn after_line(text: &[u8]) -> &[u8]
    ensures after { (line more : List ℕ) → Begins text.now line more → result.now ≡ more }
{
    match cut_line(text) {
        Some((_, behind)) => behind,
        None => b"",
    }
}

// The first line of bytes, if it is UTF-8.
fn text_line(bytes: &[u8]) -> Option<&str>
    ensures line { (line more : List ℕ) → Begins bytes.now line more → IsUtf8 line → IsSomeAnd result (λ text. text.now ≡ line) }
{
    match str::from_utf8(next_line(bytes)?) {
        Ok(line) => Some(line),
        Err(_) => None,
    }
}

// The line of a proof, if the text is one.
fn clause_in(alloc: Global, line: &[u8]) -> Result<Option<StoredLine>, NoMemory>
    ensures some { IfOk result (λ o. IfSome o (λ read. SpellsClause line.now (line_of read))) }
    ensures read { (l : ClauseLine) → SpellsClause line.now l → IfOk result (λ o. IsSomeAnd o (λ read. line_of read ≡ l)) }
{
    match read_clause_line(alloc, line) {
        Ok(line) => Ok(Some(line)),
        Err(LineFault::BadLine) => Ok(None),
        Err(LineFault::NoMemory) => Err(NoMemory),
    }
}

// The view, if the first line of a text is one.
fn view_in(text: &[u8]) -> Option<View>
    ensures view { (line more : List ℕ) → (view : View) → Begins text.now line more → ended line ≡ view_text view → result ≡ Some view }
{
    match next_line(text) {
        Some(line) => read_view(line),
        None => None,
    }
}

// The claim, if the first line of a text is one.
fn claim_in(text: &[u8]) -> Option<Claim>
    ensures claim { (line more : List ℕ) → (claim : ℤ) → Begins text.now line more → ended line ≡ claim_text claim → IsLong claim
        → IsSomeAnd result (λ found. found.value ≡ claim) }
    ensures fits { IfSome result (λ found. IsLong found.value) }
{
    match next_line(text) {
        Some(line) => read_claim(line),
        None => None,
    }
}

// The number after a word, if there are no other words.
fn number_behind(words: &[&str], key: &str) -> Option<i64>
    ensures { result ≡ keyed key.now (one long_in) (texts words.now) }
{
    long_in(only_word(behind_word(words, key)?)?)
}

// The numbers after the word `times`.
fn times_in(alloc: Global, words: &[&str]) -> Result<Option<Vec<i64>>, NoMemory>
    ensures { IfOk result (λ o. option_map (λ v. v.items) o ≡ keyed (codes "times") (many long_in) (texts words.now)) }
{
    match behind_word(words, "times") {
        Some(words) => longs_in(alloc, words),
        None => Ok(None),
    }
}

// The set of the events after the word `raise`.
fn raised_in(alloc: Global, events: u32, words: &[&str]) -> Result<Option<Vec<bool>>, NoMemory>
    ensures { IfOk result (λ o. option_map (λ v. v.items) o ≡ keyed (codes "raise") (flags_in events 0) (texts words.now)) }
{
    match behind_word(words, "raise") {
        Some(words) => flags_in(alloc, events, words),
        None => Ok(None),
    }
}
