//! Nets from a part to itself.

use crate::warning::{DrawnPlace, Warning};
use crate::warning_word::WarningWord;
use compose::Design;
use itv_base::NoMemory;

/// Puts a warning at the end for each pin that a pin of the same part drives. The answer is `NoMemory` if memory runs out.
pub fn push_itself(warnings: &mut Vec<Warning>, design: &Design<'_>) -> Result<(), NoMemory> {
    for pin in design.joins().pins() {
        if pin.driver.part == pin.driven.part {
            let place = DrawnPlace {
                part: 0,
                origin: pin.origin,
            };
            warnings.push(Warning::at(WarningWord::Itself, place))?;
        }
    }
    Ok(())
}
