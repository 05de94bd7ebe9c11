//! What stands under a key of a tree.

ghost use Rattle.std.specs.Prelude.{◌≡◌, Ok, Err, map, MatchResult};
ghost use Rattle.serde_json.specs.Find.{get};
ghost use Rattle.serde_json.specs.View.{view};
ghost use Rattle.netlist.specs.Netlist.{list_if};

use crate::fault::NetlistFault;
use json_tree::list_of;
use serde_json::Value;

/// The elements of the list under a key, none where the key is missing, or the fault where something else stands there.
pub fn list_if<'v>(
    tree: &'v Value,
    key: &str,
    fault: NetlistFault,
) -> Result<&'v [Value], NetlistFault>
    ensures { MatchResult result
        (λ list. list_if (get key.now (view tree.now)) fault ≡ Ok (map view list.now))
        (λ found. list_if (get key.now (view tree.now)) fault ≡ Err found) }
{
    match tree.get(key) {
        Some(value) => list_of(value).ok_or(fault),
        None => Ok(&[]),
    }
}
