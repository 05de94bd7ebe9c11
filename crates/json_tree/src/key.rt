//! One key compared with the known keys.

ghost use Rattle.std.specs.Prelude.{◌≡◌, map};
ghost use Rattle.std.specs.List.{list_any};
ghost use Rattle.std.specs.Str.{bytes_eq};
ghost use Rattle.json_tree.specs.NearKeys.{is_known, is_near, stem};

use crate::letters::have_one_stem;

/// Whether a key is not known, but differs from a known key only by capitals or by one final `s`.
pub(crate) fn is_near(known: &[&str], key: &str) -> bool
    ensures { result ≡ is_near (map (λ k. k.now) known.now) key.now }
{
    !is_known(known, key) && is_like_one(known, key)
}

/// Whether a key is known.
pub(crate) fn is_known(known: &[&str], key: &str) -> bool
    ensures { result ≡ is_known (map (λ k. k.now) known.now) key.now }
{
    is_among(known, key)
}

// Whether a text is one of some texts.
fn is_among(texts: &[&str], text: &str) -> bool
    ensures { result ≡ list_any (λ t. bytes_eq text.now t.now) texts.now }
{
    texts.iter().any(|other| text == *other)
}

// Whether a key differs from some known key at most by capitals and by one final `s`.
fn is_like_one(known: &[&str], key: &str) -> bool
    ensures { result ≡ list_any (λ k. bytes_eq (stem key.now) (stem k.now)) known.now }
{
    known.iter().any(|other| have_one_stem(key, other))
}
