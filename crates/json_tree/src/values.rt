//! Lists, texts, names and whole numbers of a tree.

ghost use Rattle.std.specs.Prelude.{◌≡◌, map, option_map};
ghost use Rattle.serde_json.specs.View.{view};
ghost use Rattle.json_tree.specs.Words.{list_at, list_of, name_of, text_at, whole_at};

use itv_base::is_name;
use serde_json::Value;

/// The elements of a value, if it is a list.
pub fn list_of(value: &Value) -> Option<&[Value]>
    ensures { option_map (λ list. map view list.now) result ≡ list_of (view value.now) }
{
    match value.as_array() {
        Some(list) => Some(list.as_slice()),
        None => None,
    }
}

/// The elements of the list under a key, if there is one.
pub fn list_at<'v>(tree: &'v Value, key: &str) -> Option<&'v [Value]>
    ensures { option_map (λ list. map view list.now) result ≡ list_at key.now (view tree.now) }
{
    match tree.get(key) {
        Some(value) => list_of(value),
        None => None,
    }
}

/// The text under a key, if there is one.
pub fn text_at<'v>(value: &'v Value, key: &str) -> Option<&'v str>
    ensures { option_map (λ text. text.now) result ≡ text_at key.now (view value.now) }
{
    value.get(key).and_then(Value::as_str)
}

/// The text of a value, if it has 1 to 16 characters, each a letter of ASCII, a digit or `_`.
pub fn name_of(value: &Value) -> Option<&str>
    ensures { option_map (λ name. name.now) result ≡ name_of (view value.now) }
{
    let name = value.as_str()?;
    if is_name(name) { Some(name) } else { None }
}

/// The whole number under a key, if there is one: a number without a fraction or an exponent that fits 64 bits with a
/// sign.
pub fn whole_at(value: &Value, key: &str) -> Option<i64>
    ensures { result ≡ whole_at key.now (view value.now) }
{
    value.get(key).and_then(Value::as_i64)
}
