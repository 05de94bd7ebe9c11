//! The rows of a drawn network, and the line of a row.

ghost use Rattle.std.specs.Prelude.{◌≡◌, ◌<◌, Some, length, slice_get};
ghost use Rattle.itv_base.specs.Outside.{Puts};
ghost use Rattle.slack_report.specs.Entry.{row as entry_row};
ghost use Rattle.slack_report.specs.Text.{entry_text};
ghost use Rattle.drawn_networks.specs.Drawn.{IsRowOf, name_of};

use drawn_networks::{DrawnNetwork, Row};
use itv_base::{PutFailed, Sink};
use line_words::LineBuffer;
use slack_report::{Item, write_item};

/// The row with this number, counted from 0. There has to be such a row.
pub fn row_at(drawn: &DrawnNetwork, number: u32) -> &Row
    requires number { number < length drawn.now.rows }
    ensures row { slice_get drawn.now.rows number ≡ Some result.now }
    ensures within { IsRowOf drawn.now.net result.now }
{
    drawn.rows().get(u64::from(number))
}

/// Writes the first line of a row: its number, its kind and its events. A line that fits the buffer is one put.
pub fn put_row<K: Sink>(
    number: u32,
    row: &Row,
    drawn: &DrawnNetwork,
    buffer: &mut LineBuffer,
    sink: &mut K,
) -> Result<(), PutFailed>
    requires row { IsRowOf drawn.now.net row.now }
    ensures puts { Puts (K.state sink.old) (K.state sink.new)
        (entry_text (entry_row number row.now.kind (name_of drawn.now row.now.from) (name_of drawn.now row.now.to))) result }
{
    write_item(
        &Item::Row {
            number,
            kind: row.kind,
            from: drawn.name(row.from),
            to: drawn.name(row.to),
        },
        buffer,
        sink,
    )
}
