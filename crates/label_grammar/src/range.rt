//! Reading a range that stands alone.

ghost use Rattle.std.specs.Prelude.{◌≡◌, false, Ok, IfOk};
ghost use Rattle.itv_base.specs.Range.{Ends, has_wide, is_reversed};
ghost use Rattle.label_grammar.specs.Ends.{judged_alone, only_ends};
ghost use Rattle.label_grammar.specs.Label.{ends_text};
ghost use Rattle.label_grammar.specs.Reading.{ends_of};

use crate::label::LabelFault;
use crate::parts::read_ends;
use crate::reading::range_of;
use itv_base::Range;

// What `read_range` gives, according to the definitions of reading. The other clauses of `read_range` follow from this clause.
fn read_judged(text: &str) -> Result<Range, LabelFault>
    ensures { result ≡ judged_alone (only_ends (ends_of text.now)) }
{
    let (ends, rest) = read_ends(text).ok_or(LabelFault::BadLabel)?;
    if !rest.is_empty() {
        return Err(LabelFault::BadLabel);
    }
    range_of(ends)
}

/// Reads the two ends of a range as they are written in a label: a space and `[low,high]`, in picoseconds, `*` where open, and nothing else. It
/// reports the first of these faults: the text does not have this form, an end is too wide, the ends are the wrong way round.
/// [`read_label`](crate::read_label) has the same faults in the same order.
pub fn read_range(text: &str) -> Result<Range, LabelFault>
    // The text is the spelling of what is read.
    ensures ok { IfOk result (λ r. text.now ≡ ends_text r) }
    // Two ends that make a range, and that the text spells, are read.
    ensures only { (ends : Ends) → has_wide ends ≡ false → is_reversed ends ≡ false → text.now ≡ ends_text ends
        → result ≡ Ok ends }
    // The same according to the definitions of reading, for the definitions of crates above this one.
    ensures exact { result ≡ judged_alone (only_ends (ends_of text.now)) }
{
    read_judged(text)
}
