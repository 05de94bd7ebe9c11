//! Standard input that cannot be answered.

/// The input is no text, or memory ran out. An `Unfit` is not `Drop`. So each fault that is `Drop` becomes an `Unfit` by `?`, and no `Unfit` is
/// ignored.
pub struct Unfit;

impl<E: Drop> From<E> for Unfit {
    fn from(_: E) -> Unfit {
        Unfit
    }
}
