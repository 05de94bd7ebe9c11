//! Rows of a matrix of path lengths.

ghost use Rattle.std.specs.Prelude.{◌≡◌, ◌+◌, ◌<◌, All, length};
ghost use Rattle.minplus.specs.Rows.{IsEntry, IsSmall, Improves, improved};
ghost use Rattle.minplus.specs.Step.Rows.{ImprovesPart};

/// An entry of a row that stands for no path.
pub const ABSENT: i64 = i64::MAX;

/// Improves each entry of `dst`: it becomes the lesser of itself and `w` plus the entry at its place in `src`. If the
/// entry of `src` is [`ABSENT`], the entry of `dst` stays. The rows are equally long. All numbers but [`ABSENT`] are in
/// picoseconds and below 2^61 in absolute value.
pub fn row_plain(dst: &mut [i64], src: &[i64], w: i64)
    requires lengths { length src.now ≡ length dst.old }
    requires entries { All IsEntry dst.old }
    requires others { All IsEntry src.now }
    requires weight { IsSmall w }
    ensures improves { Improves w dst.old src.now dst.new }
{
    for place in 0..dst.len() {
        improve_one(dst, src, place, w);
    }
}

/// Improves the entry at a place of `dst` by the entry at that place of `src`.
pub fn improve_one(dst: &mut [i64], src: &[i64], place: usize, w: i64)
    requires lengths { length src.now ≡ length dst.old }
    requires place { place < length dst.old }
    requires others { All IsEntry src.now }
    requires weight { IsSmall w }
    ensures improves { ImprovesPart w place (place + 1) dst.old src.now dst.new }
{
    dst[place] = improved(dst[place], src[place], w);
}

// The lesser of an entry and another entry plus a weight. If the other entry is absent, the entry stays.
fn improved(entry: i64, other: i64, weight: i64) -> i64
    requires other { IsEntry other }
    requires weight { IsSmall weight }
    ensures { result ≡ improved weight entry other }
{
    if other >= ABSENT {
        entry
    } else {
        entry.min(other + weight)
    }
}
