//! Lists that are handed out to be read.

ghost use Rattle.std.specs.Prelude.{◌≡◌, ◌==◌, ◌<◌, ◌∷◌, ◌++◌, [], Some, length, slice_get, OnOk, OnErr};

use crate::text::NoMemory;
use std::alloc::Global;
use std::marker::Model;

/// A list of elements of one type, numbered from 0. Contracts see the list itself.
#[derive(Drop)]
pub struct Listing<T> {
    items: Vec<T>,
}

impl<T> Model for Listing<T> {
    ghost use Rattle.std.specs.Prelude.{List};

    ghost Value = { List T };

    ghost view = { λ l. l.items.items };
}

impl<T> Listing<T> {
    /// The empty list. It takes no memory yet.
    pub fn new(alloc: Global) -> Listing<T>
        ensures empty { result ≡ [] }
    {
        Listing {
            items: Vec::new(alloc),
        }
    }

    /// How many elements there are.
    pub fn len(&self) -> u64
        ensures count { result ≡ length self.now }
    {
        self.items.len() as u64
    }

    /// Whether there are none.
    pub fn is_empty(&self) -> bool
        ensures test { result ≡ (length self.now == 0) }
    {
        self.items.is_empty()
    }

    /// The element at a place, counted from 0.
    pub fn get(&self, k: u64) -> &T
        requires { k < length self.now }
        ensures item { slice_get self.now k ≡ Some result.now }
    {
        &self.items[k as usize]
    }

    /// All elements in order.
    pub fn as_slice(&self) -> &[T]
        ensures items { result.now ≡ self.now }
    {
        self.items.as_slice()
    }
}

impl<T: Drop> Listing<T> {
    /// Puts an element at the end. If memory is not found, the list is unchanged.
    pub fn push(&mut self, item: T) -> Result<(), NoMemory>
        ensures ok { OnOk result (self.new ≡ self.old ++ item ∷ []) }
        ensures err { OnErr result (self.new ≡ self.old) }
    {
        self.items.push(item)?;
        Ok(())
    }
}

impl<T> From<Vec<T>> for Listing<T> {
    ghost use Rattle.std.specs.Prelude.{◌≡◌};

    ghost from_gives = { λ items listing. listing ≡ items.items };

    fn from(items: Vec<T>) -> Listing<T> {
        Listing { items }
    }
}
