//! The joins of nets.

ghost use Rattle.std.specs.Prelude.{◌≡◌, ◌+◌, ◌<◌, ◌≤◌, ◌^◌, ◌++◌, [], length, OnOk, OnErr};
ghost use Rattle.compose.specs.Joins.{join_at, joins_of_pins, pin_joins};

use crate::mark::DesignMark;
use itv_base::{NoMemory, Range};
use origin::Origin;
use std::alloc::Global;
use std::marker::Model;

/// A join: the mark `from` drives the mark `to` in the same cycle, with a delay in picoseconds. `origin` says which pin of which net has the mark
/// `to`.
#[derive(Clone, Copy)]
pub struct Join {
    pub from: DesignMark,
    pub to: DesignMark,
    pub delay: Range,
    pub origin: Origin,
}

/// The joins of one pin of a net: mark k of the driving pin drives mark k of this pin, with the net's delay. Each of both pins has `marks` marks.
/// `driver` and `driven` are the first marks of the two pins, and `origin` says which pin this is.
#[derive(Clone, Copy)]
pub struct PinJoins {
    pub driver: DesignMark,
    pub driven: DesignMark,
    pub marks: u32,
    pub delay: Range,
    pub origin: Origin,
}

impl PinJoins {
    /// The join of mark k of the two pins, counted from 0.
    pub fn join(&self, k: u32) -> Join
        requires driver { self.now.driver.mark + k < 2 ^ 32 }
        requires driven { self.now.driven.mark + k < 2 ^ 32 }
        ensures join { result ≡ join_at self.now k }
    {
        Join {
            from: mark_behind(self.driver, k),
            to: mark_behind(self.driven, k),
            delay: self.delay,
            origin: self.origin,
        }
    }
}

// The mark of the same part whose number is greater by `k`.
fn mark_behind(mark: DesignMark, k: u32) -> DesignMark
    requires { mark.mark + k < 2 ^ 32 }
    ensures { result ≡ record { part = mark.part; mark = mark.mark + k } }
{
    DesignMark {
        part: mark.part,
        mark: mark.mark + k,
    }
}

/// The joins of nets: net by net, within a net pin by pin, within a pin mark by mark. A netlist of four megabytes may have tens of millions of joins,
/// so this type keeps them pin by pin. Contracts see the list of all joins.
#[derive(Drop)]
pub struct Joins {
    pins: Vec<PinJoins>,
}

impl Model for Joins {
    ghost use Rattle.std.specs.Prelude.{List};
    ghost use Rattle.compose.specs.declared.joins.Join.{Join};
    ghost use Rattle.compose.specs.Joins.{joins_of_pins};

    ghost Value = { List Join };

    ghost view = { λ j. joins_of_pins j.pins.items };
}

impl Joins {
    /// No joins. No memory is taken yet.
    pub fn new(alloc: Global) -> Joins
        ensures empty { result ≡ [] }
    {
        Joins {
            pins: Vec::new(alloc),
        }
    }

    /// Puts the joins of a pin at the end. After `NoMemory` the joins are as they were.
    pub fn push(&mut self, pin: PinJoins) -> Result<(), NoMemory>
        ensures ok { OnOk result (self.new ≡ self.old ++ pin_joins pin) }
        ensures err { OnErr result (self.new ≡ self.old) }
    {
        self.pins.push(pin)?;
        Ok(())
    }

    /// The pins. Their joins one after another are all joins in order.
    pub fn pins(&self) -> &[PinJoins]
        ensures pins { joins_of_pins result.now ≡ self.now }
    {
        &self.pins
    }

    /// How many joins there are.
    pub fn count(&self) -> u128
        ensures count { result ≡ length self.now }
        ensures within { result ≤ 2 ^ 96 }
    {
        let mut count = 0;
        for pin in &self.pins {
            count += u128::from(pin.marks);
        }
        count
    }
}
