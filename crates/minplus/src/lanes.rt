//! Rows of a matrix, eight entries at a time.

ghost use Rattle.std.specs.Prelude.{◌≡◌, ◌+◌, ◌≤◌, ◌*◌, All, length};
ghost use lib.Lanes.{chunk, zip2};
ghost use Rattle.minplus.specs.Rows.{IsEntry, IsSmall, Improves, improved};
ghost use Rattle.minplus.specs.Step.Rows.{ImprovesPart};

use crate::rows::{ABSENT, improve_one};
use std::simd::i64x8;

// How many entries a vector holds.
const LANES: usize = 8;

/// Does the same as [`row_plain`](crate::row_plain): eight entries at a time, and the rest one by one.
pub fn row_lanes(dst: &mut [i64], src: &[i64], w: i64)
    requires lengths { length src.now ≡ length dst.old }
    requires entries { All IsEntry dst.old }
    requires others { All IsEntry src.now }
    requires weight { IsSmall w }
    ensures improves { Improves w dst.old src.now dst.new }
{
    let vectors = dst.len() / LANES;
    for vector in 0..vectors {
        improve_eight(dst, src, vector * LANES, w);
    }
    for place in vectors * LANES..dst.len() {
        improve_one(dst, src, place, w);
    }
}

// Improves eight entries of a row from a place on.
#[inline(always)]
fn improve_eight(dst: &mut [i64], src: &[i64], place: usize, w: i64)
    requires lengths { length src.now ≡ length dst.old }
    requires place { place + 8 ≤ length dst.old }
    requires entries { All IsEntry (chunk place 8 dst.old) }
    requires others { All IsEntry src.now }
    requires weight { IsSmall w }
    ensures { ImprovesPart w place (place + 8) dst.old src.now dst.new }
{
    let entries = i64x8::from_slice(&dst[place..]);
    let others = i64x8::from_slice(&src[place..]);
    improved_lanes(entries, others, w).copy_to_slice(&mut dst[place..]);
}

// Improves eight entries. The weight is never added to an absent entry.
#[inline(always)]
fn improved_lanes(entries: i64x8, others: i64x8, weight: i64) -> i64x8
    requires count { length entries ≡ 8 }
    requires other_count { length others ≡ 8 }
    requires entries { All IsEntry entries }
    requires others { All IsEntry others }
    requires weight { IsSmall weight }
    ensures { result ≡ zip2 (improved weight) entries others }
{
    let absent = others.simd_eq(i64x8::splat(ABSENT));
    let present = absent.select(i64x8::splat(0), others);
    let sums = present.strict_add(i64x8::splat(weight));
    let least = entries.simd_lt(sums).select(entries, sums);
    absent.select(entries, least)
}
