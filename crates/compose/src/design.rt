//! A design.

ghost use Rattle.std.specs.Prelude.{◌≡◌, ◌<◌, ◌≤◌, Some, length, slice_get};
ghost use Rattle.itv_base.specs.declared.limits.TheConstants.{MAX_CYCLES};
ghost use Rattle.compose.specs.Design.{IsDesign};

use crate::joins::Joins;
use itv_base::Texts;
use sheet::{Rules, Sheet, SheetRows};
use std::marker::Model;

/// A design: its cycles, its parts with their names and sheets, the joins of its nets, and the rules and rows of its wires. Rules and rows are
/// between the numbers of the design's marks. A design borrows its sheets and copies none.
#[derive(Drop)]
pub struct Design<'a> {
    pub(crate) cycles: u32,
    pub(crate) parts: Texts,
    pub(crate) sheets: Vec<&'a Sheet>,
    pub(crate) joins: Joins,
    pub(crate) rules: Rules,
    pub(crate) rows: SheetRows,
}

impl<'a> Model for Design<'a> {
    ghost use Rattle.std.specs.Prelude.{map};
    ghost use Rattle.compose.specs.Design.{DesignView, IsDesign};

    ghost Value = { DesignView };

    ghost view = { λ d. record { cycles = d.cycles; parts = d.parts; sheets = map (λ s. s.now) d.sheets.items; joins = d.joins; rules = d.rules; rows = d.rows } };

    ghost invariant = { λ d. IsDesign (record { cycles = d.cycles; parts = d.parts; sheets = map (λ s. s.now) d.sheets.items; joins = d.joins; rules = d.rules; rows = d.rows }) };
}

impl<'a> Design<'a> {
    /// How many cycles are drawn, from 1 to [`MAX_CYCLES`](itv_base::MAX_CYCLES).
    pub fn cycles(&self) -> u32
        ensures cycles { result ≡ self.now.cycles }
        ensures design { IsDesign self.now }
    {
        self.cycles
    }

    /// The names of the parts in order.
    pub fn parts(&self) -> &Texts
        ensures parts { result.now ≡ self.now.parts }
    {
        &self.parts
    }

    /// The sheet of a part that is there.
    pub fn sheet_of(&self, part: u32) -> &Sheet
        requires { part < length self.now.sheets }
        ensures sheet { slice_get self.now.sheets part ≡ Some result.now }
    {
        self.sheets[part as usize]
    }

    /// The joins of the nets: net by net, within a net pin by pin, within a pin mark by mark.
    pub fn joins(&self) -> &Joins
        ensures joins { result.now ≡ self.now.joins }
    {
        &self.joins
    }

    /// The rules of the wires, between the numbers of their marks, in the order of their first wires.
    pub fn wire_rules(&self) -> &Rules
        ensures rules { result.now ≡ self.now.rules }
    {
        &self.rules
    }

    /// The rows of the wires, between the numbers of their marks, in order.
    pub fn wire_rows(&self) -> &SheetRows
        ensures rows { result.now ≡ self.now.rows }
    {
        &self.rows
    }

    /// The same design over another number of cycles.
    pub fn over(self, cycles: u32) -> Design<'a>
        requires some { 1 ≤ cycles }
        requires most { cycles ≤ MAX_CYCLES }
        ensures design { result ≡ record self.entry { cycles = cycles } }
    {
        let Design {
            cycles: _,
            parts,
            sheets,
            joins,
            rules,
            rows,
        } = self;
        Design {
            cycles,
            parts,
            sheets,
            joins,
            rules,
            rows,
        }
    }
}
