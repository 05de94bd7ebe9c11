//! A netlist as it was read.

ghost use Rattle.std.specs.Prelude.{◌≡◌, IfOk};
ghost use Rattle.netlist.specs.Netlist.{lone_netlist, sheet_names};
ghost use Rattle.netlist.specs.Whole.{IsNetlist};

use crate::part::{Part, Parts};
use crate::pin_net::Nets;
use crate::wire::Wires;
use itv_base::{NoMemory, Text, Texts};
use json_tree::StrayKeys;
use std::alloc::Global;
use std::marker::Model;

/// The version, the number of cycles, and the parts, nets and wires of a netlist, the texts of its wires, and its stray keys.
#[derive(Drop)]
pub struct Netlist {
    pub(crate) version: u32,
    pub(crate) cycles: u32,
    pub(crate) parts: Parts,
    pub(crate) sheet_names: Texts,
    pub(crate) nets: Nets,
    pub(crate) wires: Wires,
    pub(crate) edges: Texts,
    pub(crate) stray: StrayKeys,
}

impl Model for Netlist {
    ghost use Rattle.std.specs.Prelude.{◌≡◌};
    ghost use Rattle.netlist.specs.NetlistContents.{NetlistView};
    ghost use Rattle.netlist.specs.Netlist.{sheet_names as names_of};
    ghost use Rattle.netlist.specs.Whole.{IsNetlist};

    ghost Value = { NetlistView };

    ghost view = { λ n. record { version = n.version; cycles = n.cycles; parts = n.parts; nets = n.nets; wires = n.wires; edges = n.edges; stray = n.stray } };

    ghost invariant = { λ n. IsNetlist (record { version = n.version; cycles = n.cycles; parts = n.parts; nets = n.nets; wires = n.wires; edges = n.edges; stray = n.stray })
        × (n.sheet_names ≡ names_of n.parts) };
}

impl Netlist {
    /// The netlist that stands for the sheet of a name: one part, `U`, in one cycle, of version 1.
    pub fn lone(alloc: Global, sheet: &str) -> Result<Netlist, NoMemory>
        ensures lone { IfOk result (λ netlist. netlist ≡ lone_netlist sheet.now) }
    {
        let mut parts = Parts::new(alloc);
        parts.push(Part {
            name: Text::from_text(alloc, "U")?,
            sheet: Text::from_text(alloc, sheet)?,
            grade: None,
        })?;
        let mut sheet_names = Texts::new(alloc)?;
        sheet_names.push(alloc, sheet)?;
        Ok(Netlist {
            version: 1,
            cycles: 1,
            parts,
            sheet_names,
            nets: Nets::new(alloc),
            wires: Wires::new(alloc),
            edges: Texts::new(alloc)?,
            stray: StrayKeys::new(alloc),
        })
    }

    /// The version, 1 or 2: in version 2 the parts may have speed grades, and the labels of their sheets may name parameters.
    pub fn version(&self) -> u32
        ensures version { result ≡ self.now.version }
    {
        self.version
    }

    /// How many cycles are drawn, from 1 to [`MAX_CYCLES`](itv_base::MAX_CYCLES).
    pub fn cycles(&self) -> u32
        ensures cycles { result ≡ self.now.cycles }
        ensures netlist { IsNetlist self.now }
    {
        self.cycles
    }

    /// The parts in order, at most [`MAX_PARTS`](itv_base::MAX_PARTS). Their names differ.
    pub fn parts(&self) -> &Parts
        ensures parts { result.now ≡ self.now.parts }
    {
        &self.parts
    }

    /// The distinct names of the parts' sheets in the order of first mention, at most [`MAX_SHEET_NAMES`](itv_base::MAX_SHEET_NAMES).
    pub fn sheet_names(&self) -> &Texts
        ensures names { result.now ≡ sheet_names self.now.parts }
    {
        &self.sheet_names
    }

    /// The nets in order.
    pub fn nets(&self) -> &Nets
        ensures nets { result.now ≡ self.now.nets }
    {
        &self.nets
    }

    /// The wires in order, comments among them.
    pub fn wires(&self) -> &Wires
        ensures wires { result.now ≡ self.now.wires }
    {
        &self.wires
    }

    /// The texts of the wires in order, as they are written, comments among them.
    pub fn edges(&self) -> &Texts
        ensures edges { result.now ≡ self.now.edges }
    {
        &self.edges
    }

    /// The keys that are not known: keys of the tree itself, then keys of its parts, and then keys of its nets, in order. A lone netlist has
    /// none.
    pub fn stray(&self) -> &StrayKeys
        ensures stray { result.now ≡ self.now.stray }
    {
        &self.stray
    }
}
