//! Keepers of the notes of a design.

ghost use Rattle.std.specs.Prelude.{◌≡◌};
ghost use Rattle.origin.specs.NotesKept.{NotesKept};

use crate::origin::Origin;

/// Keeps the notes of a design.
pub trait Notes {
    /// The notes, and the speed grades of parts.
    ghost noted: { Self → NotesKept };

    /// The note of what draws a cause of a constraint, or a row. The part is the part of the constraint's target, or of the row's events; it
    /// is not used if the netlist draws the cause or the row. The note is empty if there is none.
    fn note(&self, part: &str, origin: Origin) -> &str
        ensures note { result.now ≡ (noted self.now).note part.now origin };

    /// The speed grade at which the part of a row is drawn, given the name of the part. It is empty if the part has none, or if the netlist draws
    /// the row.
    fn grade(&self, part: &str, origin: Origin) -> &str
        ensures grade { result.now ≡ (noted self.now).grade part.now origin };
}
