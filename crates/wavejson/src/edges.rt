//! The edge texts of a diagram.

ghost use Rattle.std.specs.Prelude.{◌≡◌, Ok, Err, map, position, codes, MatchResult};
ghost use Rattle.std.specs.List.{filter_map};
ghost use Rattle.serde_json.specs.Find.{get, as_str};
ghost use Rattle.serde_json.specs.View.{view};
ghost use Rattle.wavejson.specs.Drawing.{edge_texts, is_no_string};

use crate::fault::DiagramFault;
use serde_json::Value;

/// The elements of `edge`, all strings, or the first fault of what stands there.
pub(crate) fn edge_list(tree: &Value) -> Result<&[Value], DiagramFault>
    ensures { MatchResult result
        (λ list. edge_texts (get (codes "edge") (view tree.now)) ≡ Ok (filter_map as_str (map view list.now)))
        (λ fault. edge_texts (get (codes "edge") (view tree.now)) ≡ Err fault) }
{
    let Some(edge) = tree.get("edge") else {
        return Ok(&[]);
    };
    let Some(list) = edge.as_array() else {
        return Err(DiagramFault::EdgesNotList);
    };
    match first_no_string(list) {
        Some(place) => Err(DiagramFault::EdgeNotText(place as u64)),
        None => Ok(list),
    }
}

fn first_no_string(list: &[Value]) -> Option<usize>
    ensures { result ≡ position (λ v. is_no_string (view v)) list.now }
{
    list.iter().position(|element| !element.is_string())
}
