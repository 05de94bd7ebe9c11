//! Tables of the first leads into marks.

ghost use Rattle.std.specs.Prelude.{◌≡◌, OnOk, is_some};
ghost use Rattle.std.specs.Option.{option_copied, option_or};
ghost use Rattle.compose.specs.declared.mark.DesignMark.{DesignMark as MarkSeen};
ghost use Rattle.lint.specs.Step.{first_at, given_at};

use crate::lead::Lead;
use compose::DesignMark;
use itv_base::NoMemory;
use std::collections::HashMap;

/// A lead for each of some marks, given by the numbers of its part and of the mark.
pub type FirstLeads = HashMap<(u32, u32), Lead>;

/// The lead of a mark, if it has one.
pub fn first_at(firsts: &FirstLeads, mark: DesignMark) -> Option<&Lead>
    ensures { option_copied result ≡ first_at firsts.now mark }
{
    firsts.get(&(mark.part, mark.mark))
}

/// Whether a mark has a lead.
pub fn has_first(firsts: &FirstLeads, mark: DesignMark) -> bool
    ensures { result ≡ is_some (first_at firsts.now mark) }
{
    firsts.contains_key(&(mark.part, mark.mark))
}

/// Notes a lead at the mark that it goes into, if it is given and the mark has none.
pub fn note_first(firsts: &mut FirstLeads, given: bool, lead: &Lead) -> Result<(), NoMemory>
    ensures noted { OnOk result ((mark : MarkSeen) → first_at firsts.new mark ≡ option_or (first_at firsts.old mark) (given_at mark given lead.now)) }
{
    if given && !has_first(firsts, lead.to) {
        firsts.insert((lead.to.part, lead.to.mark), *lead)?;
    }
    Ok(())
}
