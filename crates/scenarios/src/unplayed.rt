//! Why rows are not played to their end.

use std::fmt::Debug;

/// A row is none, or a file or memory fails. What failed is not said: the rows that are printed show where.
#[derive(Drop)]
pub(crate) struct Unplayed;

impl<E: Debug + Drop> From<E> for Unplayed {
    fn from(_error: E) -> Unplayed {
        Unplayed
    }
}
