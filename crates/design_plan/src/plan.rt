//! A plan.

ghost use Rattle.std.specs.Prelude.{◌≡◌, ◌<◌, [], Some, IfOk, IfSome, find, length, option_and_then, slice_get, unwrap_or};
ghost use Rattle.std.specs.Option.{option_copied, option_map_or};
ghost use Rattle.std.specs.Str.{bytes_eq};
ghost use Rattle.compose.specs.Nets.{part_named};
ghost use Rattle.compose.specs.Sheets.{key_of};
ghost use Rattle.netlist.specs.declared.part.Part.{Part as PartSeen};
ghost use Rattle.design_plan.specs.Notes.{edge_named, net_note, part_grade, part_note, plan_note, wire_note};
ghost use Rattle.design_plan.specs.Plan.{IsPlan, sheet_among};

use crate::label_note::{edge_title, net_note, wire_note};
use crate::places::places_of;
use compose::Sheets;
use itv_base::{NoMemory, Texts};
use netlist::{Netlist, Nets, Part};
use origin::{Notes, Origin};
use sheet::Sheet;
use std::alloc::Global;
use std::marker::Model;

/// What was read of a design: its netlist, and the sheets of its parts.
#[derive(Drop)]
pub struct Plan {
    netlist: Netlist,
    sheets: Sheets,
    // The place of the sheet of each part among the sheets, part by part.
    places: Vec<usize>,
}

impl Model for Plan {
    ghost use Rattle.design_plan.specs.Plan.{IsPlan, PlanView};
    ghost use Rattle.design_plan.specs.Step.{ArePartPlaces};

    ghost Value = { PlanView };

    ghost view = { λ p. record { netlist = p.netlist; sheets = p.sheets.entries } };

    ghost invariant = { λ p. IsPlan (record { netlist = p.netlist; sheets = p.sheets.entries })
        × ArePartPlaces p.sheets.entries p.netlist.parts p.places.items };
}

impl Plan {
    /// The plan of a netlist and of sheets; each part has its sheet among them.
    pub fn of(alloc: Global, netlist: Netlist, sheets: Sheets) -> Result<Plan, NoMemory>
        requires sheets { IsPlan (record { netlist = netlist; sheets = sheets.entries }) }
        ensures plan { IfOk result (λ plan. plan ≡ record { netlist = netlist; sheets = sheets.entries }) }
    {
        match places_of(alloc, netlist.parts().as_slice(), &sheets) {
            Ok(places) => Ok(Plan {
                netlist,
                sheets,
                places,
            }),
            Err(NoMemory) => {
                drop(netlist);
                drop(sheets);
                Err(NoMemory)
            }
        }
    }

    /// The netlist.
    pub fn netlist(&self) -> &Netlist
        ensures netlist { result.now ≡ self.now.netlist }
        ensures plan { IsPlan self.now }
    {
        &self.netlist
    }

    /// The sheets by their names and speed grades, in the order in which they were read.
    pub fn sheets(&self) -> &Sheets
        ensures sheets { result.now.entries ≡ self.now.sheets }
    {
        &self.sheets
    }

    // What an edge of the sheet of a part is called, given the name of the part.
    fn part_note(&self, name: &str, n: u64) -> &str
        ensures { result.now ≡ part_note self.now name.now n }
    {
        match self.edge_named(name, n) {
            Some(edge) => edge_title(self.netlist.version(), edge),
            None => "",
        }
    }

    /// The text of an edge of the sheet of the first part with a name, if it is there. Edges are counted from 0.
    pub fn edge_named(&self, name: &str, n: u64) -> Option<&str>
        ensures text { option_copied result ≡ edge_named self.now name.now n }
    {
        match part_named(self.netlist.parts().as_slice(), name) {
            Some(part) => text_at(self.sheet_of(part).edges(), n),
            None => None,
        }
    }

    // The speed grade of the part with a name, or an empty text.
    fn part_grade(&self, name: &str) -> &str
        ensures { result.now ≡ part_grade self.now name.now }
    {
        match part_called(self.netlist.parts().as_slice(), name) {
            Some(part) => grade_of(part),
            None => "",
        }
    }

    // The sheet of the part of a number.
    fn sheet_of(&self, part: usize) -> &Sheet
        requires { part < length self.now.netlist.parts }
        ensures { option_and_then (λ (p : PartSeen). sheet_among self.now.sheets (key_of p)) (slice_get self.now.netlist.parts part) ≡ Some result.now }
    {
        match self.sheets.get_index(self.places[part]) {
            Some((_, sheet)) => sheet,
            None => unreachable!(),
        }
    }
}

// The number of the first part with a name.
fn part_named(parts: &[Part], name: &str) -> Option<usize>
    ensures within { IfSome result (λ part. part < length parts.now) }
    ensures found { result ≡ part_named parts.now name.now }
{
    parts.iter().position(|part| name == part.name.as_text())
}

// The first part with a name.
fn part_called<'a>(parts: &'a [Part], name: &str) -> Option<&'a Part>
    ensures { option_copied result ≡ find (λ (part : PartSeen). bytes_eq name.now part.name) parts.now }
{
    parts.iter().find(|part| name == part.name.as_text())
}

// The speed grade of a part, or an empty text.
fn grade_of(part: &Part) -> &str
    ensures { result.now ≡ unwrap_or part.now.grade [] }
{
    match &part.grade {
        Some(grade) => grade.as_text(),
        None => "",
    }
}

// The text of a number, if it is there.
fn text_at(texts: &Texts, n: u64) -> Option<&str>
    ensures { option_copied result ≡ slice_get texts.now n }
{
    if n < texts.len() {
        Some(texts.get(n).as_text())
    } else {
        None
    }
}

// The name of the net of a number, or an empty text where there is no such net or it has no name that can be printed.
fn net_name(nets: &Nets, n: u64) -> &str
    ensures { result.now ≡ option_map_or net_note (slice_get nets.now n) [] }
{
    if n < nets.len() {
        net_note(nets.get(n))
    } else {
        ""
    }
}

impl Notes for Plan {
    ghost use Rattle.design_plan.specs.Notes.{plan_notes};

    ghost noted = { plan_notes };

    fn note(&self, part: &str, origin: Origin) -> &str {
        match origin {
            Origin::Edge(n) => self.part_note(part, n),
            Origin::Wire(n) => match text_at(self.netlist.edges(), n) {
                Some(wire) => wire_note(wire),
                None => "",
            },
            Origin::Pin { net, .. } => net_name(self.netlist.nets(), net),
            Origin::Lane(_) => "",
        }
    }

    fn grade(&self, part: &str, origin: Origin) -> &str {
        match origin {
            Origin::Edge(_) => self.part_grade(part),
            Origin::Wire(_) | Origin::Pin { .. } | Origin::Lane(_) => "",
        }
    }
}
