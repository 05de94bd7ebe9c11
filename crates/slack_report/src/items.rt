//! The items of a report that was read.

ghost use Rattle.std.specs.Prelude.{◌≡◌, ◌+◌, ◌<◌, ◌==◌, Some, length, slice_get};
ghost use Rattle.itv_base.specs.Names.{name_view};
ghost use Rattle.slack_report.specs.Items.{item_view, owned_name, owned_view, views};

use crate::item::Item;
use crate::owned::{OwnedItem, OwnedName};
use itv_base::EventName;
use std::marker::Model;

/// The lines of a report in their order. Contracts see the list of the lines.
#[derive(Drop)]
pub struct Items {
    list: Vec<OwnedItem>,
}

impl Model for Items {
    ghost use Rattle.std.specs.Prelude.{List};
    ghost use Rattle.slack_report.specs.Entry.{Entry};
    ghost use Rattle.slack_report.specs.Items.{views};

    ghost Value = { List Entry };

    ghost view = { λ i. views i.list.items };
}

fn lend_name(name: &OwnedName) -> EventName<'_>
    ensures { name_view result ≡ owned_name name.now }
{
    EventName {
        part: name.part.as_text(),
        mark: name.mark,
        cycle: name.cycle,
    }
}

// Lends the line.
fn lend(item: &OwnedItem) -> Item<'_>
    ensures { item_view result ≡ owned_view item.now }
{
    match item {
        OwnedItem::Heading => Item::Heading,
        OwnedItem::Budget(budget) => Item::Budget { budget: *budget },
        OwnedItem::Events(count) => Item::Events { count: *count },
        OwnedItem::Event(number, name) => Item::Event {
            number: *number,
            name: lend_name(name),
        },
        OwnedItem::Proof(line) => Item::Proof(line.line()),
        OwnedItem::Finding(word) => Item::Finding(*word),
        OwnedItem::Times(list) => Item::Times(list),
        OwnedItem::Rows(count) => Item::Rows { count: *count },
        OwnedItem::Row(number, kind, from, to) => Item::Row {
            number: *number,
            kind: *kind,
            from: lend_name(from),
            to: lend_name(to),
        },
        OwnedItem::Bound(which, bound) => Item::Bound {
            which: *which,
            bound: *bound,
        },
        OwnedItem::Raise(set) => Item::Raise(set),
        OwnedItem::Verdict(word) => Item::Verdict(*word),
        OwnedItem::Slack(value) => Item::Slack(*value),
        OwnedItem::End(word) => Item::End(*word),
    }
}

impl Items {
    // The lines that were stored.
    pub(crate) fn new(list: Vec<OwnedItem>) -> Items
        ensures { result ≡ views list.items }
    {
        Items { list }
    }

    /// How many lines there are.
    pub fn len(&self) -> u64
        ensures count { result ≡ length self.now }
    {
        self.list.len() as u64
    }

    /// Whether there are no lines. A report has some.
    pub fn is_empty(&self) -> bool
        ensures test { result ≡ (length self.now == 0) }
    {
        self.list.is_empty()
    }

    /// The line at a place, counted from 0, and its number in the text, counted from 1.
    pub fn get(&self, k: u64) -> (Item<'_>, u64)
        requires { k < length self.now }
        ensures item { slice_get self.now k ≡ Some (item_view result.0) }
        ensures line { result.1 ≡ k + 1 }
    {
        let item = &self.list[k as usize];
        (lend(item), k + 1)
    }
}
