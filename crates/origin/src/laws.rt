//! Laws on the definitions that the contracts of this crate cite. The functions do nothing.

ghost use Rattle.std.specs.Prelude.{◌≡◌};
ghost use Rattle.origin.specs.Text.{origin_text};
ghost use Rattle.origin.specs.declared.origin.Origin.{Origin};

/// Two different origins have different texts.
pub fn origin_texts_differ()
    ensures differ { (a b : Origin) → origin_text a ≡ origin_text b → a ≡ b }
{}
