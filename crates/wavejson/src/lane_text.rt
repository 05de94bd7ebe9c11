//! The texts of a lane.

ghost use Rattle.std.specs.Prelude.{◌≡◌, option_and_then, option_map, codes, IfOk};
ghost use Rattle.serde_json.specs.View.{view};
ghost use Rattle.json_tree.specs.Words.{text_at};
ghost use Rattle.wavejson.specs.Drawing.{unless_empty, lane_of};

use itv_base::{NoMemory, Text};
use json_tree::{owned_text, text_at};
use serde_json::Value;
use std::alloc::Global;

/// What a lane says of itself. A key that is missing or holds no string gives `None`.
#[derive(Drop)]
pub struct LaneText {
    /// The name of the lane. An empty name counts as absent.
    pub name: Option<Text>,
    /// The drawn wave, one character for each brick.
    pub wave: Option<Text>,
    /// The marks, one character for each brick.
    pub node: Option<Text>,
}

/// The lane of an object. All its other keys are ignored.
pub(crate) fn read_lane(alloc: Global, object: &Value) -> Result<LaneText, NoMemory>
    ensures { IfOk result (λ lane. lane ≡ lane_of (view object.now)) }
{
    Ok(LaneText {
        name: owned_text(alloc, name_of(object))?,
        wave: owned_text(alloc, text_at(object, "wave"))?,
        node: owned_text(alloc, text_at(object, "node"))?,
    })
}

fn name_of(object: &Value) -> Option<&str>
    ensures { option_map (λ name. name.now) result
        ≡ option_and_then unless_empty (text_at (codes "name") (view object.now)) }
{
    text_at(object, "name").filter(|name| !name.is_empty())
}
