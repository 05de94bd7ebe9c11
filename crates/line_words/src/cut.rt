//! Cutting the first line off a text.

ghost use Rattle.std.specs.Prelude.{◌≡◌, ◌≤◌, length};
ghost use Rattle.std.specs.List.{position_or_len};
ghost use Rattle.line_words.specs.Cuts.{Cuts};
ghost use Rattle.line_words.specs.Lines.{is_feed};

/// The first line of a text, and the text after its end. None if no line ends.
pub fn cut_line(text: &[u8]) -> Option<(&[u8], &[u8])>
    ensures { Cuts text.now result }
{
    let len = line_len(text);
    if len == text.len() {
        return None;
    }
    Some((&text[..len], &text[len + 1..]))
}

/// How many bytes stand before the first line end, or all if no line ends.
pub fn line_len(text: &[u8]) -> usize
    ensures len { result ≡ position_or_len is_feed text.now }
    ensures within { result ≤ length text.now }
{
    text.iter().take_while(|b| **b != b'\n').count()
}
