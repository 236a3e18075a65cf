//! The cells of a row.

ghost use Rattle.std.specs.Prelude.{◌≡◌, IfOk};

use crate::shared::Shared;
use crate::text::Text;
use std::alloc::{AllocError, Global};

/// Bytes, as those of an import text.
pub type Bytes = Shared<u8>;

/// What the cells of a column are.
#[derive(Clone, Copy, PartialEq, Eq, Drop)]
pub enum Kind {
    Text,
    Number,
    Bytes,
}

/// A cell of a row.
#[derive(Drop)]
pub enum Cell {
    Text(Text),
    Number(u32),
    Bytes(Bytes),
}

impl Cell {
    /// Returns the cell of this text, in memory of its own.
    pub fn text(alloc: Global, text: &str) -> Result<Self, AllocError>
        ensures { IfOk result (λ cell. cell ≡ Cell.Text text.now) }
    {
        Ok(Cell::Text(Text::of(alloc, text)?))
    }

    /// Returns the same cell. A text is in memory of its own, and bytes are shared.
    pub fn copy(&self, alloc: Global) -> Result<Self, AllocError>
        ensures { IfOk result (λ cell. cell ≡ self.now) }
    {
        match self {
            Cell::Text(text) => Cell::text(alloc, text.as_str()),
            Cell::Number(number) => Ok(Cell::Number(*number)),
            Cell::Bytes(bytes) => Ok(Cell::Bytes(bytes.copy()?)),
        }
    }
}
