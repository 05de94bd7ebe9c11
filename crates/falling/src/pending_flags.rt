//! Flags of constraints, as bits.

ghost use Rattle.std.specs.Prelude.{◌≡◌, ◌≢◌, ◌<◌, ◌≤◌, ◌*◌, ◌/◌, ℕ, All, IfOk, IfSome, IfNone, length, slice_index_or, sum};
ghost use Rattle.itv_base.specs.declared.limits.TheConstants.{MAX_CONSTRAINTS};
ghost use Rattle.falling.specs.Step.Agenda.{IsFirstPending, IsPending};
ghost use Rattle.falling.specs.Step.Words.{AreEmpty};

use itv_base::NoMemory;
use std::alloc::Global;
use std::marker::Model;

/// A flag for each number of a constraint: the bits of words of 64 bits, the least number first. Contracts see
/// the words.
#[derive(Drop)]
pub struct PendingFlags {
    words: Vec<u64>,
    start: usize,
}

impl Model for PendingFlags {
    ghost use Rattle.std.specs.Prelude.{List, ℕ};
    ghost use Rattle.falling.specs.Step.Words.{HasStart};

    ghost Value = { List ℕ };

    ghost view = { λ p. p.words.items };

    ghost invariant = { HasStart };
}

impl PendingFlags {
    /// Room for the flags of so many constraints. Takes all the memory that is ever needed.
    pub fn new(alloc: Global, count: u32) -> Result<PendingFlags, NoMemory>
        requires count { count ≤ MAX_CONSTRAINTS }
        ensures room { IfOk result (λ pending. count ≤ 64 * length pending) }
    {
        Ok(PendingFlags {
            words: vec![in alloc; 0; (count / 64 + 1) as usize]?,
            start: 0,
        })
    }

    /// Gives each number its flag.
    pub fn fill(&mut self)
        ensures count { length self.new ≡ length self.old }
        ensures each { (number : ℕ) → number < 64 * length self.new → IsPending self.new number }
    {
        self.words.fill(u64::MAX);
        self.start = 0;
    }

    /// The least number that has its flag.
    pub fn first(&mut self) -> Option<u32>
        ensures same { self.new ≡ self.old }
        ensures first { IfSome result (IsFirstPending self.old) }
        ensures none { IfNone result ((number : ℕ) → IsPending self.old number → ⊥) }
    {
        self.start = first_used(&self.words, self.start);
        if self.start == self.words.len() {
            return None;
        }
        Some(first_bit(&self.words, self.start))
    }

    /// Takes the flag from a number that has it.
    pub fn remove(&mut self, number: u32)
        requires within { number < 64 * length self.old }
        requires there { IsPending self.old number }
        ensures count { length self.new ≡ length self.old }
        ensures gone { IsPending self.new number → ⊥ }
        ensures others { (k : ℕ) → k ≢ number → IsPending self.old k → IsPending self.new k }
        ensures less { sum self.new < sum self.old }
    {
        clear_bit(&mut self.words, number);
    }

    /// Gives a number its flag.
    pub fn insert(&mut self, number: u32)
        requires within { number < 64 * length self.old }
        ensures count { length self.new ≡ length self.old }
        ensures there { IsPending self.new number }
        ensures kept { (k : ℕ) → IsPending self.old k → IsPending self.new k }
    {
        set_bit(&mut self.words, number);
        self.start = self.start.min((number / 64) as usize);
    }
}

/// Gives some numbers their flags.
pub fn insert_all(pending: &mut PendingFlags, numbers: &[u32])
    requires within { All (λ (number : ℕ). number < 64 * length pending.old) numbers.now }
    ensures count { length pending.new ≡ length pending.old }
    ensures there { All (IsPending pending.new) numbers.now }
    ensures kept { (k : ℕ) → IsPending pending.old k → IsPending pending.new k }
{
    for place in 0..numbers.len() {
        pending.insert(numbers[place]);
    }
}

// The place of the first word with a flag, or the number of words if none has a flag. The words before `start` have none.
fn first_used(words: &[u64], start: usize) -> usize
    requires start { start ≤ length words.now }
    requires empty { AreEmpty words.now start }
    ensures most { result ≤ length words.now }
    ensures empty { AreEmpty words.now result }
    ensures used { result < length words.now → slice_index_or words.now result 0 ≢ 0 }
{
    for place in start..words.len() {
        if words[place] != 0 {
            return place;
        }
    }
    words.len()
}

// The least number that has its flag. It is in the word at the place, the first word with a flag.
fn first_bit(words: &[u64], place: usize) -> u32
    requires within { place < length words.now }
    requires empty { AreEmpty words.now place }
    requires used { slice_index_or words.now place 0 ≢ 0 }
    requires small { length words.now ≤ MAX_CONSTRAINTS }
    ensures { IsFirstPending words.now result }
{
    place as u32 * 64 + words[place].trailing_zeros()
}

// Gives a number its flag.
fn set_bit(words: &mut [u64], number: u32)
    requires within { number < 64 * length words.old }
    ensures count { length words.new ≡ length words.old }
    ensures there { IsPending words.new number }
    ensures kept { (k : ℕ) → IsPending words.old k → IsPending words.new k }
    ensures empty { (start : ℕ) → start ≤ number / 64 → AreEmpty words.old start → AreEmpty words.new start }
{
    words[(number / 64) as usize] |= 1 << (number % 64);
}

// Takes the flag from a number that has it.
fn clear_bit(words: &mut [u64], number: u32)
    requires within { number < 64 * length words.old }
    requires there { IsPending words.old number }
    ensures count { length words.new ≡ length words.old }
    ensures gone { IsPending words.new number → ⊥ }
    ensures others { (k : ℕ) → k ≢ number → IsPending words.old k → IsPending words.new k }
    ensures less { sum words.new < sum words.old }
    ensures empty { (start : ℕ) → AreEmpty words.old start → AreEmpty words.new start }
{
    words[(number / 64) as usize] &= !(1 << (number % 64));
}
