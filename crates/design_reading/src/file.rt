//! Fetching files, and reading their trees.

ghost use Rattle.std.specs.Prelude.{◌<◌, ◌+◌, ◌^◌};
ghost use Rattle.serde_json.specs.View.{view};
ghost use Rattle.design_reading.specs.Design.{tree_at, tree_in};
ghost use Rattle.design_reading.specs.FileReading.{file_at, within_limit};
ghost use Rattle.design_reading.specs.Step.{Opens, ReadsAs};

use crate::refusal::Refusal;
use crate::refusal_place::RefusalPlace;
use crate::stop::Stop;
use itv_base::{FILE_LIMIT, FetchFault, Listing, Shelf};
use serde_json::Value;
use std::alloc::Global;

/// The tree of a file. A file is refused if it is longer than [`FILE_LIMIT`] or no JSON.
pub fn open_tree<H: Shelf>(
    alloc: Global,
    place: RefusalPlace,
    name: &str,
    shelf: &mut H,
) -> Result<Value, Stop>
    ensures { Opens view (H.state shelf.old) (H.state shelf.new) (tree_in place name.now) result }
{
    let bytes = fetch_file(alloc, place, name, FILE_LIMIT, shelf)?;
    read_tree(alloc, place, bytes.as_slice())
}

/// The bytes of a file. A file that is longer than a limit, in bytes, is refused.
///
/// One byte more than the limit is fetched, which shows whether the file is too long. `NoMemory` may come in place of any answer. A fetch that
/// failed leaves the name of the file with the shelf, and any other answer leaves the shelf as it was.
pub fn fetch_file<H: Shelf>(
    alloc: Global,
    place: RefusalPlace,
    name: &str,
    limit: u32,
    shelf: &mut H,
) -> Result<Listing<u8>, Stop>
    requires limit { limit + 1 < 2 ^ 32 }
    ensures opens { Opens (λ bytes. bytes) (H.state shelf.old) (H.state shelf.new)
        (file_at place name.now limit) result }
{
    match shelf.fetch(alloc, name, limit + 1) {
        Ok(bytes) => judge_length(place, bytes, limit),
        Err(FetchFault::Failed) => Err(Stop::ReadFault(place)),
        Err(FetchFault::NoMemory) => Err(Stop::NoMemory),
    }
}

// Bytes that are not longer than a limit.
fn judge_length(place: RefusalPlace, bytes: Vec<u8>, limit: u32) -> Result<Listing<u8>, Stop>
    ensures { ReadsAs (λ bytes. bytes) (within_limit place limit bytes.items) result }
{
    if bytes.len() > limit as usize {
        return Err(Stop::Refused(place, Refusal::TooLong));
    }
    Ok(Listing::from(bytes))
}

// The tree of some bytes.
fn read_tree(alloc: Global, place: RefusalPlace, bytes: &[u8]) -> Result<Value, Stop>
    ensures { ReadsAs view (tree_at place bytes.now) result }
{
    match Value::from_slice(alloc, bytes) {
        Ok(tree) => Ok(tree),
        Err(error) => {
            if error.is_memory() {
                Err(Stop::NoMemory)
            } else {
                Err(Stop::Refused(place, Refusal::NotJson))
            }
        }
    }
}
