//! Laws on the definitions that the contracts of this crate cite. The functions do nothing.

ghost use Rattle.compose.specs.Design.{DesignView};
ghost use Rattle.drawn_networks.specs.Drawn.{OriginsFit};
ghost use Rattle.unroll.specs.Drawn.{drawn_of};

/// Each constraint that a design draws has an origin for each of its causes.
pub fn origins_fit()
    ensures fit { (d : DesignView) → OriginsFit (drawn_of d).net (drawn_of d).origins }
{}
