//! Intervals of values.

ghost use Rattle.std.specs.Prelude.{◌≡◌, ◌*ℤ◌, ◌≤ℤ◌, ℤ, IfSome};
ghost use Rattle.spans.specs.Step.{IsCountStep, IsInside, IsInterval, IsUnwrapped, IsValue};

/// An interval of values in picoseconds, counted from the drawn one. It has no end on a side that is `None`.
#[derive(Clone, Copy)]
pub struct Interval {
    pub least: Option<i64>,
    pub most: Option<i64>,
}

/// The least multiple of the values of an interval, or `None` if there is none.
pub fn least_multiple(interval: Interval, times: i64) -> Option<i64>
    requires interval { IsInterval interval }
    requires times { IsCountStep times }
    ensures least { IfSome result (λ least. (value : ℤ) → IsInside interval value → least ≤ℤ (times *ℤ value)) }
    ensures small { IfSome result IsUnwrapped }
{
    if times == 0 {
        return Some(0);
    }
    if times < 0 {
        match interval.most {
            None => None,
            Some(most) => Some(product(times, most)),
        }
    } else {
        match interval.least {
            None => None,
            Some(least) => Some(product(times, least)),
        }
    }
}

/// The greatest multiple of the values of an interval, or `None` if there is none.
pub fn greatest_multiple(interval: Interval, times: i64) -> Option<i64>
    requires interval { IsInterval interval }
    requires times { IsCountStep times }
    ensures greatest { IfSome result (λ greatest. (value : ℤ) → IsInside interval value → (times *ℤ value) ≤ℤ greatest) }
    ensures small { IfSome result IsUnwrapped }
{
    if times == 0 {
        return Some(0);
    }
    if times < 0 {
        match interval.least {
            None => None,
            Some(least) => Some(product(times, least)),
        }
    } else {
        match interval.most {
            None => None,
            Some(most) => Some(product(times, most)),
        }
    }
}

// A multiple of a value.
fn product(times: i64, value: i64) -> i64
    requires times { IsCountStep times }
    requires value { IsValue value }
    ensures product { result ≡ times *ℤ value }
    ensures small { IsUnwrapped result }
{
    times * value
}
