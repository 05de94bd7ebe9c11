//! How many rows there are of each rank.

ghost use Rattle.std.specs.Prelude.{◌≡◌, length};
ghost use Rattle.job_brief.specs.Step.{place_count};

use crate::row_rank::{FAILS, PASSES, RowRank, UNDECIDED};

/// How many rows there are, and how many requirements pass, fail and are left undecided.
#[derive(Clone, Copy)]
pub struct RowCounts {
    pub rows: u64,
    pub pass: u64,
    pub fail: u64,
    pub undecided: u64,
}

/// How many rows of some places are of each rank.
pub fn counts_of(places: &[RowRank]) -> RowCounts
    ensures rows { result.rows ≡ length places.now }
    ensures pass { result.pass ≡ place_count 2 places.now }
    ensures fail { result.fail ≡ place_count 0 places.now }
    ensures undecided { result.undecided ≡ place_count 1 places.now }
{
    RowCounts {
        rows: places.len() as u64,
        pass: rank_count(places, PASSES),
        fail: rank_count(places, FAILS),
        undecided: rank_count(places, UNDECIDED),
    }
}

// How many places are of a rank.
fn rank_count(places: &[RowRank], rank: u8) -> u64
    ensures { result ≡ place_count rank places.now }
{
    places.iter().filter(|place| place.rank == rank).count() as u64
}
