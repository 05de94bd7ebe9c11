//! A sheet as it was read.

ghost use Rattle.std.specs.Prelude.{◌≡◌};
ghost use Rattle.sheet.specs.Whole.{IsWhole};

use crate::mark::Marks;
use crate::pin::Pins;
use crate::row::SheetRows;
use crate::rule::Rules;
use itv_base::Texts;
use std::marker::Model;

/// The marks, pins, rules and rows of a sheet, the texts of its edges, and its near keys.
#[derive(Drop)]
pub struct Sheet {
    pub(crate) marks: Marks,
    pub(crate) pins: Pins,
    pub(crate) rules: Rules,
    pub(crate) rows: SheetRows,
    pub(crate) edges: Texts,
    pub(crate) near: Texts,
}

impl Model for Sheet {
    ghost use Rattle.sheet.specs.SheetContents.{SheetView};
    ghost use Rattle.sheet.specs.Whole.{IsWhole};

    ghost Value = { SheetView };

    ghost view = { λ s. record { marks = s.marks; pins = s.pins; rules = s.rules; rows = s.rows; edges = s.edges; near = s.near } };

    ghost invariant = { λ s. IsWhole (record { marks = s.marks; pins = s.pins; rules = s.rules; rows = s.rows; edges = s.edges; near = s.near }) };
}

impl Sheet {
    /// The marks, numbered from 0 lane by lane and then by place.
    pub fn marks(&self) -> &Marks
        ensures marks { result.now ≡ self.now.marks }
        ensures whole { IsWhole self.now }
    {
        &self.marks
    }

    /// The pins in the order of their lanes.
    pub fn pins(&self) -> &Pins
        ensures pins { result.now ≡ self.now.pins }
    {
        &self.pins
    }

    /// The rules in the order in which they become constraints: the order on the lanes, and then the edges.
    pub fn rules(&self) -> &Rules
        ensures rules { result.now ≡ self.now.rules }
    {
        &self.rules
    }

    /// The separations that are asked for, in the order of their edges.
    pub fn rows(&self) -> &SheetRows
        ensures rows { result.now ≡ self.now.rows }
    {
        &self.rows
    }

    /// The texts of the edges of the drawing in order, as they are written, with the comments.
    pub fn edges(&self) -> &Texts
        ensures edges { result.now ≡ self.now.edges }
    {
        &self.edges
    }

    /// The near keys of the drawing's tree, which are ignored and nearly are keys that are read: its own, and then the near keys of
    /// its lanes in order.
    pub fn near(&self) -> &Texts
        ensures near { result.now ≡ self.now.near }
    {
        &self.near
    }
}
