//! Copies of the texts of a tree.

ghost use Rattle.std.specs.Prelude.{◌≡◌, map, option_map, IfOk};
ghost use Rattle.std.specs.List.{filter_map};
ghost use Rattle.serde_json.specs.Find.{as_str};
ghost use Rattle.serde_json.specs.View.{view};

use itv_base::{NoMemory, Text, Texts};
use serde_json::Value;
use std::alloc::Global;

/// The texts of a list. An element that is no text is ignored.
pub fn strings_in(alloc: Global, list: &[Value]) -> Result<Texts, NoMemory>
    ensures { IfOk result (λ texts. texts ≡ filter_map as_str (map view list.now)) }
{
    let mut texts = Texts::new(alloc)?;
    for element in list {
        if let Some(text) = element.as_str() {
            texts.push(alloc, text)?;
        }
    }
    Ok(texts)
}

/// A copy of a text, if there is one.
pub fn owned_text(alloc: Global, text: Option<&str>) -> Result<Option<Text>, NoMemory>
    ensures { IfOk result (λ copy. copy ≡ option_map (λ t. t.now) text.entry) }
{
    match text {
        Some(text) => Ok(Some(Text::from_text(alloc, text)?)),
        None => Ok(None),
    }
}
