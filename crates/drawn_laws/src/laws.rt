//! The laws.

ghost use Rattle.drawn_laws.specs.Law.{DrawnNamesDiffer, DrawnNamesHaveForm, DrawnRangesHaveForm, ReadIsDesign};

/// Each event of a drawn network has a name of its form. The function does nothing. Its clause holds of all designs.
pub fn drawn_names_have_form()
    ensures law { DrawnNamesHaveForm }
{}

/// No two events of a drawn network have the same name.
pub fn drawn_names_differ()
    ensures law { DrawnNamesDiffer }
{}

/// The ends of each requirement of a drawn network are a range.
pub fn drawn_ranges_have_form()
    ensures law { DrawnRangesHaveForm }
{}

/// What is composed from the plan that the files of a design give is a design.
pub fn read_is_design()
    ensures law { ReadIsDesign }
{}
