//! The nets of a netlist.

ghost use Rattle.std.specs.Prelude.{◌≡◌};
ghost use Rattle.std.specs.Option.{option_copied};

use crate::pin::PinTexts;
use itv_base::{Listing, Range, Text};
use std::marker::Model;

/// A net: its first pin drives each of the others, with a delay in picoseconds. It may have a name.
#[derive(Drop)]
pub struct PinNet {
    pub(crate) name: Option<Text>,
    pub(crate) pins: PinTexts,
    pub(crate) delay: Range,
}

impl Model for PinNet {
    ghost use Rattle.netlist.specs.NetlistContents.{PinNetView};

    ghost Value = { PinNetView };

    ghost view = { λ n. record { name = n.name; pins = n.pins; delay = n.delay } };
}

impl PinNet {
    /// The name as it is written, if the net has one. It may be any text.
    pub fn name(&self) -> Option<&str>
        ensures name { option_copied result ≡ self.now.name }
    {
        match &self.name {
            Some(name) => Some(name.as_text()),
            None => None,
        }
    }

    /// The pins in order, at least one.
    pub fn pins(&self) -> &PinTexts
        ensures pins { result.now ≡ self.now.pins }
    {
        &self.pins
    }

    /// The range of the delay from the first pin to each other pin, in picoseconds.
    pub fn delay(&self) -> Range
        ensures delay { result ≡ self.now.delay }
    {
        self.delay
    }
}

/// Nets in the order in which they are listed.
pub type Nets = Listing<PinNet>;
