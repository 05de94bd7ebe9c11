//! Timing labels of version 2.

use crate::label::Kind;
use itv_base::Range;

/// What gives the ends of a label of version 2. A name is a slice of the text that it was read from.
#[derive(Clone, Copy)]
pub enum Span<'a> {
    /// The range of the separation in picoseconds.
    Fixed(Range),
    /// The name of a parameter that stands for the range. It has the form that [`is_name`](itv_base::is_name) takes.
    Named(&'a str),
}

/// A timing label of version 2, in which a parameter may stand for the range. Its texts are slices of the text that it was read
/// from.
#[derive(Clone, Copy)]
pub struct Label2<'a> {
    pub kind: Kind,
    /// How many cycles the from-event is before the to-event, at most [`MAX_SHIFT`](itv_base::MAX_SHIFT).
    pub shift: u32,
    /// The tag, which says to which group of causes of its target the label belongs. It has the form that [`is_name`](itv_base::is_name) takes.
    pub tag: Option<&'a str>,
    /// What gives the range of the separation. Only an ask has none.
    pub span: Option<Span<'a>>,
    /// A remark, which means nothing.
    pub note: Option<&'a str>,
}
