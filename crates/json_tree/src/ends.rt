//! Pairs of ends.

ghost use Rattle.std.specs.Prelude.{◌≡◌, map, option_map};
ghost use Rattle.serde_json.specs.View.{view};
ghost use Rattle.json_tree.specs.Words.{end_of, ends_by};
ghost use Rattle.json_tree.specs.Pairs.{ends_view};

use serde_json::Value;

/// Two ends in picoseconds. `None` is an open end. It is not yet known whether they are a range.
#[derive(Clone, Copy)]
pub struct EndPair {
    pub low: Option<i64>,
    pub high: Option<i64>,
}

/// The two ends of a list of two. Each is a whole number, or null for an open end.
pub fn ends_by(list: &[Value]) -> Option<EndPair>
    ensures { option_map ends_view result ≡ ends_by (map view list.now) }
{
    let [low, high] = list else {
        return None;
    };
    Some(EndPair {
        low: end_of(low)?,
        high: end_of(high)?,
    })
}

// An end: null for an open end, or a whole number.
fn end_of(value: &Value) -> Option<Option<i64>>
    ensures { result ≡ end_of (view value.now) }
{
    match value {
        Value::Null => Some(None),
        Value::Number(number) => number.as_i64().map(Some),
        _ => None,
    }
}
