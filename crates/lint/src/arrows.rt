//! Sheets whose edges all are plain arrows, as most WaveDrom drawings have them.

use crate::about::About;
use crate::asked::part_count;
use crate::comments::is_edge_comment;
use crate::warning::Warning;
use crate::warning_word::WarningWord;
use crate::words::after_space;
use compose::Design;
use itv_base::{NoMemory, Texts};

/// Puts a warning at the end for the sheet of each part that has edges with labels, if all its edges are comments. The answer is `NoMemory` if memory runs
/// out.
pub fn push_arrows(warnings: &mut Vec<Warning>, design: &Design<'_>) -> Result<(), NoMemory> {
    for part in 0..part_count(design) {
        let count = arrow_count(design.sheet_of(part).edges());
        if 0 < count {
            let word = WarningWord::Arrows;
            let about = About::Count { part, count };
            warnings.push(Warning { word, about })?;
        }
    }
    Ok(())
}

// How many edges have labels, if all edges are comments; and otherwise 0.
fn arrow_count(edges: &Texts) -> u64 {
    let mut count = 0;
    for n in 0..edges.len() {
        let text = edges.get(n).as_text();
        if !is_edge_comment(text) {
            return 0;
        }
        if !after_space(text).trim_start().is_empty() && count < u64::MAX {
            count += 1;
        }
    }
    count
}
