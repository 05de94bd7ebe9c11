//! Laws of what is found, and of the network apart from the order of lanes. The functions have no code; their contracts hold for all drawn networks.

ghost use Rattle.explanations.specs.Answers.{FoundSettles};
ghost use Rattle.explanations.specs.Apart.{ApartIsWider};

/// Times that satisfy a drawn network satisfy its network apart from the order of lanes.
pub fn apart_is_wider()
    ensures law { ApartIsWider }
{}

/// If a budget is no less than the number of cause choices, searches within it leave neither the finding nor a bound open.
pub fn found_settles()
    ensures law { FoundSettles }
{}
