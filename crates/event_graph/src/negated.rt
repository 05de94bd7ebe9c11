//! Minus a number of picoseconds.

ghost use Rattle.std.specs.Prelude.{◌≡◌, neg_ℤ, option_map, Some};
ghost use Rattle.itv_base.specs.Range.{IsEnd};
ghost use Rattle.event_graph.specs.Times.{IsTime};

/// Minus a time or a separation. It is below 2^61 in absolute value.
pub fn negated_time(value: i64) -> i64
    requires { IsTime value }
    ensures value { result ≡ neg_ℤ value }
    ensures within { IsTime result }
{
    -value
}

/// Minus the weight of an edge, which is a finite end of a range.
pub fn negated_weight(weight: i64) -> i64
    requires { IsEnd (Some weight) }
    ensures value { result ≡ neg_ℤ weight }
    ensures within { IsEnd (Some result) }
{
    -weight
}

/// Minus an end of a range, or none if it is open.
pub fn negated_end(end: Option<i64>) -> Option<i64>
    requires { IsEnd end }
    ensures { result ≡ option_map neg_ℤ end }
{
    match end {
        None => None,
        Some(value) => Some(-value),
    }
}
