//! What is in a tree of JSON: lists, texts, names and whole numbers, under a key or by themselves, pairs of ends, and keys of objects
//! that are ignored. The near keys of sheets differ from keys that are read only by capitals or by one final `s`. The stray keys of
//! netlists are all keys that are not known. All readers of trees share the words of its contracts: the elements of an
//! array, and the members of an object with their keys. The one contract: a call gives what its definition says of the tree. It
//! gives `None` if and only if the tree has no such value there.
#![tactic(auto)]

mod ends;
mod key;
mod key_place;
mod letters;
mod objects;
mod sheet;
mod stray;
mod stray_key;
mod texts;
mod unknown;
mod values;

pub use ends::{EndPair, ends_by};
pub use key_place::KeyPlace;
pub use sheet::near_in_sheet;
pub use stray::stray_in_netlist;
pub use stray_key::{StrayKey, StrayKeys};
pub use texts::{owned_text, strings_in};
pub use values::{list_at, list_of, name_of, text_at, whole_at};
