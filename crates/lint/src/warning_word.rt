//! The words of warnings.

ghost use Rattle.std.specs.Prelude.{◌≡◌};
ghost use Rattle.lint.specs.Words.{can_be_meant, word_text};

/// What a warning of the drawing says. A new word has its row in `text` and in `can_be_meant`, and in the definitions beside them.
#[derive(Clone, Copy)]
pub enum WarningWord {
    /// The design asks nothing: it has no question and no requirement.
    Rows,
    /// All edges of a sheet are comments, and some of them have labels.
    Arrows,
    /// The text of an edge is a comment, and has a sign of a label.
    Comment,
    /// The text of an edge is a comment without a sign of a label, and its first word is a kind of a label, or is nearly one.
    Word,
    /// The note of an edge begins with a unit of time or with a bracket.
    Note,
    /// A key is ignored: a key of a sheet that nearly is a key that is read, or a key of the netlist, of a part or of a net that is not known.
    Key,
    /// An end of the range of an edge or of the delay of a net is tiny compared with most ends of the design.
    Unit,
    /// Two linear rules from different marks hold one mark from above. An edge of the netlist and an edge of a sheet may be the two.
    Both,
    /// A latest or earliest rule has one cause.
    Single,
    /// Two rules from a clock to itself, over marks that follow one driver, have different ranges. Or a mark follows a clock by a linear rule or a pin
    /// whose range is not one value, has no period of its own, and a row leads into it from an earlier cycle, from a mark without a period of its own.
    Period,
    /// A mark follows two drivers.
    Drivers,
    /// A mark follows a driver by a pin, and an edge of its own sheet holds it from above.
    Own,
    /// A mark follows a driver by a pin or by an edge of the netlist, and an edge of its own sheet holds it from below alone, as a requirement does.
    Held,
    /// The text of an edge is that of an earlier edge of its sheet or of the netlist, and is no comment.
    Again,
    /// The wave of a lane has ended at a mark, and draws something at an earlier mark.
    Wave,
    /// An edge of the netlist carries a rise of a part to a fall of another part, or a fall to a rise.
    Kinds,
    /// A net joins two pins of one part.
    Itself,
    /// A net has no delay, and most nets of the netlist have one. A net of clocks alone has no warning.
    Delay,
    /// A requirement of the netlist begins or ends before the net into the part that it is about.
    Before,
    /// Two marks that a rule holds together within a cycle have periods of their own, and these differ.
    Tied,
}

impl WarningWord {
    /// The word as it is printed.
    pub fn text(self) -> &'static [u8]
        ensures text { result.now ≡ word_text self }
    {
        match self {
            WarningWord::Rows => b"rows",
            WarningWord::Arrows => b"arrows",
            WarningWord::Comment => b"comment",
            WarningWord::Word => b"word",
            WarningWord::Note => b"note",
            WarningWord::Key => b"key",
            WarningWord::Unit => b"unit",
            WarningWord::Both => b"both",
            WarningWord::Single => b"single",
            WarningWord::Period => b"period",
            WarningWord::Drivers => b"drivers",
            WarningWord::Own => b"own",
            WarningWord::Held => b"held",
            WarningWord::Again => b"again",
            WarningWord::Wave => b"wave",
            WarningWord::Kinds => b"kinds",
            WarningWord::Itself => b"self",
            WarningWord::Delay => b"delay",
            WarningWord::Before => b"before",
            WarningWord::Tied => b"tied",
        }
    }

    /// Whether a note that ends with `(meant)` silences the warning: what it says may be intended, and is no slip of the pen.
    pub fn can_be_meant(self) -> bool
        ensures meant { result ≡ can_be_meant self }
    {
        match self {
            WarningWord::Unit
            | WarningWord::Both
            | WarningWord::Single
            | WarningWord::Period
            | WarningWord::Own
            | WarningWord::Again
            | WarningWord::Kinds
            | WarningWord::Itself
            | WarningWord::Delay
            | WarningWord::Before
            | WarningWord::Tied => true,
            WarningWord::Rows
            | WarningWord::Arrows
            | WarningWord::Comment
            | WarningWord::Word
            | WarningWord::Note
            | WarningWord::Key
            | WarningWord::Drivers
            | WarningWord::Held
            | WarningWord::Wave => false,
        }
    }
}
