//! Whether names and kinds of rows are the same.

ghost use Rattle.std.specs.Prelude.{◌≡◌, ◌↔◌, IsTrue};
ghost use Rattle.itv_base.specs.Names.{name_view};

use itv_base::{EventName, Range, RowKind};

/// Whether two names are the same.
pub fn same_name(name: EventName<'_>, other: EventName<'_>) -> bool
    ensures same { IsTrue result ↔ (name_view name.entry ≡ name_view other.entry) }
{
    name.part == other.part && name.mark == other.mark && name.cycle == other.cycle
}

fn same_range(range: Range, other: Range) -> bool
    ensures same { IsTrue result ↔ (range ≡ other) }
{
    range.low() == other.low() && range.high() == other.high()
}

/// Whether the same is wanted of two rows.
pub fn same_kind(kind: &RowKind, other: &RowKind) -> bool
    ensures same { IsTrue result ↔ (kind.now ≡ other.now) }
{
    match (kind, other) {
        (RowKind::Ask, RowKind::Ask) => true,
        (RowKind::Req(range), RowKind::Req(other)) => same_range(*range, *other),
        _ => false,
    }
}
