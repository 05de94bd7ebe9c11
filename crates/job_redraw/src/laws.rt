//! What a report with a fail at its end says. The function does nothing.

ghost use Rattle.job_redraw.specs.Laws.{FailIsShown};

/// If a report as job bounds writes it ends with a fail, it has a first failed row. The times of that row satisfy the network, and
/// break what the row demands on the side that its verdict names.
pub fn fail_is_shown()
    ensures law { FailIsShown }
{}
