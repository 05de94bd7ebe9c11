//! The separations that the edges of a drawing ask for.

ghost use Rattle.std.specs.Prelude.{◌≡◌, ◌++◌, OnOk, option_to_list};
ghost use Rattle.sheet.specs.Links.{row_by};
ghost use Rattle.sheet.specs.Step.{link_view};

use crate::link::Link;
use crate::row::{SheetRow, SheetRows};
use itv_base::{NoMemory, RowKind};
use label_grammar::Kind;

/// Puts the row of a link at the end, if the link asks for a separation or demands a range of it.
pub fn push_row(rows: &mut SheetRows, link: &Link<'_>) -> Result<(), NoMemory>
    ensures rows { OnOk result (rows.new ≡ rows.old ++ option_to_list (row_by (link_view link.now) link.now.label.kind)) }
{
    let kind = match link.label.kind {
        Kind::Req => RowKind::Req(link.range()),
        Kind::Ask => RowKind::Ask,
        _ => return Ok(()),
    };
    rows.push(SheetRow {
        kind,
        from: link.from,
        to: link.to,
        shift: link.label.shift,
        origin: link.origin,
    })
}
