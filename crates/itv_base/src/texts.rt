//! Lists of owned texts.

ghost use Rattle.std.specs.Prelude.{◌≡◌, ◌<◌, ◌∷◌, ◌++◌, [], List, ℕ, Some, length, slice_get, IfOk, OnOk, OnErr};

use crate::text::{NoMemory, Text};
use std::alloc::Global;
use std::marker::Model;

/// A list of texts. Contracts see a list of lists of bytes.
#[derive(Drop)]
pub struct Texts {
    items: Vec<Text>,
}

impl Model for Texts {
    ghost use Rattle.std.specs.Prelude.{List, ℕ};

    ghost Value = { List (List ℕ) };

    ghost view = { λ t. t.items.items };
}

impl Texts {
    /// The empty list.
    pub fn new(alloc: Global) -> Result<Texts, NoMemory>
        ensures empty { IfOk result (λ t. t ≡ []) }
    {
        Ok(Texts {
            items: Vec::new(alloc),
        })
    }

    /// Puts a copy of a text at the end. If memory is not found, the list is unchanged.
    pub fn push(&mut self, alloc: Global, text: &str) -> Result<(), NoMemory>
        ensures ok { OnOk result (self.new ≡ self.old ++ text.now ∷ []) }
        ensures err { OnErr result (self.new ≡ self.old) }
    {
        self.items.push(Text::from_text(alloc, text)?)?;
        Ok(())
    }

    /// How many texts there are.
    pub fn len(&self) -> u64
        ensures count { result ≡ length self.now }
    {
        self.items.len() as u64
    }

    /// The text at a place, counted from 0.
    pub fn get(&self, k: u64) -> &Text
        requires { k < length self.now }
        ensures item { slice_get self.now k ≡ Some result.now }
    {
        &self.items[k as usize]
    }

    /// The texts, in their order.
    pub fn as_slice(&self) -> &[Text]
        ensures texts { result.now ≡ self.now }
    {
        self.items.as_slice()
    }
}

/// A copy of texts.
pub fn copied_texts(alloc: Global, texts: &Texts) -> Result<Texts, NoMemory>
    ensures copy { IfOk result (λ copy. copy ≡ texts.now) }
{
    let mut copy = Texts::new(alloc)?;
    for k in 0..texts.len() {
        copy.push(alloc, texts.get(k).as_text())?;
    }
    Ok(copy)
}
