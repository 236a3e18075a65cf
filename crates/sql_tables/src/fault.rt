//! Why a statement fails.

ghost use Rattle.std.specs.Prelude.{◌≡◌};
ghost use Rattle.sql_tables.specs.Faults.{fault_of};

use sqlite::{Error, ErrorCode};

/// Why a statement was not carried out.
#[derive(Clone, Copy, Drop)]
pub enum TableFault {
    /// A growth was refused.
    Memory,
    /// The database refused it, or its disk failed.
    Storage,
}

/// That a statement was carried out, or why it was not.
pub type Wrote = Result<(), TableFault>;

impl From<Error> for TableFault {
    ghost from_gives = { λ e fault. fault ≡ fault_of e };

    fn from(error: Error) -> TableFault {
        match error {
            Error::SqliteFailure(ErrorCode::OutOfMemory) => TableFault::Memory,
            // What the database refuses and what its disk fails at are one fault. The clauses named *cause* say which of them it was.
            _ => TableFault::Storage,
        }
    }
}
