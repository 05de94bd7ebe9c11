//! Laws of edits. Each is the contract of a function that does nothing.

ghost use Rattle.range_edits.specs.Laws.{EditLinesAreRead};

/// A line of a file of edits is read as an edit if and only if it is the text of this edit and what it names is there.
pub fn edit_lines_are_read()
    ensures law { EditLinesAreRead }
{}
