//! The marks of a design.

/// A mark of a design: the number of its part, and the number of the mark on the part's sheet, both from 0.
#[derive(Clone, Copy)]
pub struct DesignMark {
    pub part: u32,
    pub mark: u32,
}
