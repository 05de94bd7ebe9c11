//! What is found of one end of a requirement, or of both.

ghost use Rattle.std.specs.Prelude.{◌≡◌};
ghost use Rattle.probing.specs.Step.{both_of};

/// What is found of one end of a requirement, or of both.
#[derive(Clone, Copy, PartialEq, Eq)]
pub enum SideFound {
    /// No satisfying times are past it.
    Meets,
    /// Some satisfying times are past it.
    Exceeds,
    /// The search was left open.
    Open,
}

/// What is found of both ends of a requirement.
pub fn both_of(high: SideFound, low: SideFound) -> SideFound
    ensures both { result ≡ both_of high low }
{
    match high {
        SideFound::Exceeds => SideFound::Exceeds,
        SideFound::Meets => low,
        SideFound::Open => open_or(low),
    }
}

// What is found of both ends, where the search of one was left open.
fn open_or(other: SideFound) -> SideFound
    ensures { result ≡ both_of SideFound.Open other }
{
    match other {
        SideFound::Exceeds => SideFound::Exceeds,
        SideFound::Meets => SideFound::Open,
        SideFound::Open => SideFound::Open,
    }
}
