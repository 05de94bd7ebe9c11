//! What bricks draw.

ghost use Rattle.std.specs.Prelude.{◌≡◌, if◌then◌else◌};
ghost use Rattle.wave_string.specs.Kinds.{class_of, continues, last_class};

/// What a brick draws, according to the character that is in effect there.
#[derive(Clone, Copy)]
pub enum Class {
    /// A clock that begins each brick high and ends it low.
    PositiveClock,
    /// A clock that begins each brick low and ends it high.
    NegativeClock,
    Low,
    High,
    /// Some value of a bus.
    Bus,
    Floating,
    WeakUp,
    WeakDown,
    /// The class of `x`, and of every character without a class of its own.
    Unknown,
}

impl Class {
    /// The class of a character that does not continue the brick before it.
    pub fn of(character: char) -> Self
        ensures { result ≡ class_of character }
    {
        match character {
            'p' | 'P' => Class::PositiveClock,
            'n' | 'N' => Class::NegativeClock,
            '0' | 'l' | 'L' => Class::Low,
            '1' | 'h' | 'H' => Class::High,
            '=' | '2'..='9' => Class::Bus,
            'z' => Class::Floating,
            'u' => Class::WeakUp,
            'd' => Class::WeakDown,
            _ => Class::Unknown,
        }
    }

    /// The class in effect at the next brick, from its character.
    pub fn followed_by(self, character: char) -> Self
        ensures { result ≡ (if continues character then self else class_of character) }
    {
        if continues(character) {
            self
        } else {
            Class::of(character)
        }
    }

    /// The class that a brick of this class ends with.
    pub fn at_end(self) -> Self
        ensures { result ≡ last_class self }
    {
        match self {
            Class::PositiveClock => Class::Low,
            Class::NegativeClock => Class::High,
            level => level,
        }
    }
}

/// Whether the character continues the brick before it. A gap, `|`, does so too.
pub fn continues(character: char) -> bool
    ensures { result ≡ continues character }
{
    matches!(character, '.' | '|')
}
