//! Putting a warning at the end.

ghost use Rattle.std.specs.Prelude.{◌≡◌, ◌++◌, OnOk};
ghost use Rattle.lint.specs.Lists.{warned};

use crate::warning::Warning;
use itv_base::NoMemory;

/// Puts a warning at the end, where it is given.
pub fn push_where(
    given: bool,
    warning: Warning,
    warnings: &mut Vec<Warning>,
) -> Result<(), NoMemory>
    ensures pushed { OnOk result (warnings.new.items ≡ warnings.old.items ++ warned given warning) }
{
    if given {
        warnings.push(warning)?;
    }
    Ok(())
}
