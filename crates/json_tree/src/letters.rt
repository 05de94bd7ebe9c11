//! Texts without regard to capitals and to one final `s`.

ghost use Rattle.std.specs.Prelude.{◌≡◌, ◌==◌, map};
ghost use Rattle.std.specs.Str.{bytes_eq};
ghost use Rattle.json_tree.specs.NearKeys.{small, stem, without_s};

/// Whether two texts differ at most by capitals and by one final `s`.
pub(crate) fn have_one_stem(left: &str, right: &str) -> bool
    ensures { result ≡ bytes_eq (stem left.now) (stem right.now) }
{
    are_one_in_small_letters(without_s(left.as_bytes()), without_s(right.as_bytes()))
}

// A text without one final `s`, small or capital.
fn without_s(text: &[u8]) -> &[u8]
    ensures { map small result.now ≡ without_s (map small text.now) }
{
    let [front @ .., last] = text else {
        return text;
    };
    if is_s(*last) { front } else { text }
}

// Whether a byte is `s` or its capital.
fn is_s(byte: u8) -> bool
    ensures { result ≡ (small byte == 115) }
{
    matches!(byte, b's' | b'S')
}

// Whether two texts differ at most by capitals.
fn are_one_in_small_letters(left: &[u8], right: &[u8]) -> bool
    ensures { result ≡ bytes_eq (map small left.now) (map small right.now) }
{
    left.eq_ignore_ascii_case(right)
}
