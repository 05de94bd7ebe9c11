//! Laws of the generated design. The functions do nothing. What they ensure holds for every size.

ghost use Rattle.design_gen.specs.Files.{FilesFit};

/// No file of the generated design is longer than a file may be.
pub fn files_fit()
    ensures { FilesFit }
{}
