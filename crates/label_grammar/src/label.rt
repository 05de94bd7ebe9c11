//! Timing labels.

ghost use Rattle.std.specs.Prelude.{◌≡◌};
ghost use Rattle.label_grammar.specs.Label.{kind_text};

use itv_base::Range;

/// What a label says of its edge.
#[derive(Clone, Copy, PartialEq, Eq)]
pub enum Kind {
    /// The separation of the two events lies in the range.
    Lin,
    /// A cause of a target. The target comes at the latest of its causes, each delayed within its range.
    Late,
    /// A cause of a target. The target comes at the earliest of its causes, each delayed within its range.
    Early,
    /// A requirement: the separation is to lie in the range. It constrains nothing.
    Req,
    /// A question: the separation is asked for. It constrains nothing.
    Ask,
}

impl Kind {
    /// What a label of this kind begins with.
    pub(crate) fn word(self) -> &'static str
        ensures { result.now ≡ kind_text self }
    {
        match self {
            Kind::Lin => "@lin",
            Kind::Late => "@late",
            Kind::Early => "@early",
            Kind::Req => "@req",
            Kind::Ask => "@ask",
        }
    }
}

/// A timing label. Its texts are slices of the text that it was read from.
#[derive(Clone, Copy)]
pub struct Label<'a> {
    pub kind: Kind,
    /// How many cycles the from-event is before the to-event, at most [`MAX_SHIFT`](itv_base::MAX_SHIFT).
    pub shift: u32,
    /// The tag, which says to which group of causes of its target the label belongs. It has the form that [`is_name`](itv_base::is_name) takes.
    pub tag: Option<&'a str>,
    /// The range of the separation in picoseconds. Only an ask has no range.
    pub range: Option<Range>,
    /// A remark, which means nothing.
    pub note: Option<&'a str>,
}

/// Why a text is no label. A reader reports the first of these that applies.
#[derive(Clone, Copy, Debug)]
pub enum LabelFault {
    /// The text does not have the form of a label.
    BadLabel,
    /// A number is beyond [`END_LIMIT`](itv_base::END_LIMIT) in absolute value.
    TooWide,
    /// The low end is above the high end.
    EmptyRange,
}
