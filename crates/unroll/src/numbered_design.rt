//! Designs whose marks are numbered part by part.

ghost use Rattle.std.specs.Prelude.{◌≡◌, ◌<◌, ◌≤◌, IfOk, length, take};
ghost use Rattle.compose.specs.Design.{IsDesign, IsMarkOf};
ghost use Rattle.compose.specs.Numbers.{mark_count, number_of};
ghost use Rattle.unroll.specs.Step.Firsts.{firsts_of};

use compose::{Design, DesignMark};
use itv_base::{MAX_EVENTS, NoMemory};
use std::alloc::Global;
use std::marker::Model;

/// A design with few marks, and the number of the first mark of each part.
#[derive(Drop)]
pub struct NumberedDesign<'a> {
    design: &'a Design<'a>,
    firsts: Vec<u32>,
}

impl<'a> Model for NumberedDesign<'a> {
    ghost use Rattle.compose.specs.Design.{DesignView};
    ghost use Rattle.unroll.specs.Step.Firsts.{IsNumbered};

    ghost Value = { DesignView };

    ghost view = { λ n. n.design.now };

    ghost invariant = { λ n. IsNumbered n.design.now n.firsts.items };
}

impl<'a> NumberedDesign<'a> {
    /// Numbers the marks of a design.
    pub fn new(alloc: Global, design: &'a Design<'a>) -> Result<NumberedDesign<'a>, NoMemory>
        requires { mark_count design.now.sheets ≤ MAX_EVENTS }
        ensures { IfOk result (λ numbered. numbered ≡ design.now) }
    {
        let _cycles = design.cycles();
        let firsts = firsts_of(alloc, design)?;
        Ok(NumberedDesign { design, firsts })
    }

    /// The design itself.
    pub fn design(&self) -> &Design<'a>
        ensures design { result.now ≡ self.now }
        ensures whole { IsDesign self.now }
        ensures few { mark_count self.now.sheets ≤ MAX_EVENTS }
    {
        self.design
    }

    /// The number of the first mark of a part.
    pub fn first_of(&self, part: u32) -> u32
        requires { part < length self.now.sheets }
        ensures first { result ≡ mark_count (take part self.now.sheets) }
        ensures few { mark_count self.now.sheets ≤ MAX_EVENTS }
    {
        self.firsts[part as usize]
    }

    /// The number of a mark.
    pub fn number_of(&self, mark: DesignMark) -> u32
        requires { IsMarkOf self.now.sheets mark }
        ensures { result ≡ number_of self.now.sheets mark }
    {
        self.first_of(mark.part) + mark.mark
    }
}

// The numbers of the first marks of the parts.
fn firsts_of(alloc: Global, design: &Design<'_>) -> Result<Vec<u32>, NoMemory>
    requires { mark_count design.now.sheets ≤ MAX_EVENTS }
    ensures { IfOk result (λ firsts. firsts.items ≡ firsts_of 0 design.now.sheets) }
{
    let _cycles = design.cycles();
    let parts = design.parts().len() as u32;
    let mut firsts = Vec::new(alloc);
    let mut first = 0;
    for part in 0..parts {
        firsts.push(first)?;
        first += design.sheet_of(part).marks().len() as u32;
    }
    Ok(firsts)
}
