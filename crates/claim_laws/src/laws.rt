//! The laws. The functions do nothing; what they ensure holds of all words, all files and all reports.

ghost use Rattle.claim_laws.specs.Laws.{LoneIsRead, PlainWord, RequirementHasVerdict, RightTextIsSo, RowHasGreatest, RowHasLeast};

/// One word that does not begin with `-` asks for the bounds of the design of a file with this name, with the default budget.
pub fn plain_word()
    ensures law { PlainWord }
{}

/// If the file of a design is a lone sheet, what is read is what the tree of the file draws.
pub fn lone_is_read()
    ensures law { LoneIsRead }
{}

/// In a right report that does not end with `end inconsistent` each row has a greatest and a least bound, and each row with a
/// requirement has a verdict.
pub fn rows_have_lines()
    ensures greatest { RowHasGreatest }
    ensures least { RowHasLeast }
    ensures verdict { RequirementHasVerdict }
{}

/// In the text of such a report each row has its lines, and what the bounds and the verdicts say is so.
pub fn right_text_is_so()
    ensures law { RightTextIsSo }
{}
