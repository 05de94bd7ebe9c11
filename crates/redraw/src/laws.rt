//! Laws of narrowed times and of drawings. The functions do nothing; each law is the contract of one.

ghost use Rattle.redraw.specs.Laws.{DrawnBelong, DrawnStayAbove, DrawnStayBelow, NarrowedSatisfy, NarrowedStayAbove, NarrowedStayBelow, NarrowingIsByGaps, OtherNamesDiffer};

/// Narrowing reduces each gap between neighbouring times that is greater than the width to the width, and changes no other gap.
pub fn narrowing_is_by_gaps()
    ensures law { NarrowingIsByGaps }
{}

/// If times satisfy the network, their narrowed times satisfy it.
pub fn narrowed_satisfy()
    ensures law { NarrowedSatisfy }
{}

/// A separation above a high end stays above it in narrowed times, unless the end is the limit of ends or beyond that limit.
pub fn narrowed_stay_above()
    ensures law { NarrowedStayAbove }
{}

/// A separation below a low end stays below it in narrowed times, unless the end is minus the limit of ends or beyond that.
pub fn narrowed_stay_below()
    ensures law { NarrowedStayBelow }
{}

/// A separation of a row above such a high end stays above it in drawn times.
pub fn drawn_stay_above()
    ensures law { DrawnStayAbove }
{}

/// A separation of a row below such a low end stays below it in drawn times.
pub fn drawn_stay_below()
    ensures law { DrawnStayBelow }
{}

/// If a network has few enough events, all are drawn, and the drawn times of satisfying times satisfy the network.
pub fn drawn_belong()
    ensures law { DrawnBelong }
{}

/// If no name occurs twice, two events of a network have different texts for names.
pub fn other_names_differ()
    ensures law { OtherNamesDiffer }
{}
