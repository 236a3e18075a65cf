//! The tables.

ghost use Rattle.std.specs.Prelude.{◌≡◌};
ghost use Rattle.schema.specs.Rows.{keyed, kinds_of};

use crate::cell::Kind;

/// A table of the product.
#[derive(Clone, Copy, PartialEq, Eq, Drop)]
pub enum Table {
    Edition,
    Supervisor,
    Project,
    Student,
    Round,
    /// The choices of earlier editions.
    OldChoice,
    /// The placements of earlier editions.
    OldPlacement,
    Import,
    RoundAim,
    Choice,
    Placement,
}

impl Table {
    /// Returns what the cells of its columns are, in their order.
    pub fn kinds(self) -> &'static [Kind]
        ensures { result.now ≡ kinds_of self }
    {
        match self {
            Table::Edition | Table::Round | Table::RoundAim => &[Kind::Number, Kind::Number],
            Table::Supervisor => &[Kind::Text, Kind::Text, Kind::Number],
            Table::Project => &[Kind::Text, Kind::Text, Kind::Text, Kind::Number],
            Table::Student => &[Kind::Text, Kind::Text],
            Table::OldChoice | Table::Choice => {
                &[Kind::Number, Kind::Text, Kind::Number, Kind::Text]
            }
            Table::OldPlacement | Table::Placement => {
                &[Kind::Text, Kind::Number, Kind::Text, Kind::Number]
            }
            Table::Import => &[Kind::Text, Kind::Text, Kind::Bytes, Kind::Number],
        }
    }

    /// Returns how many of its first columns are its key.
    pub fn keyed(self) -> usize
        ensures { result ≡ keyed self }
    {
        match self {
            Table::OldChoice | Table::Choice => 3,
            _ => 1,
        }
    }
}
