//! Why a call of the store fails.

ghost use Rattle.std.specs.Prelude.{◌≡◌};
ghost use Rattle.store.specs.declared.fault.StoreFault.TheVariants.{Memory};
ghost use Rattle.store.specs.Inside.Faults.{of_rows, of_table};
ghost use Rattle.sql_tables.specs.Faults.{fault_of};

use office::from_rows::RowsFault;
use sql_tables::fault::TableFault;
use sqlite::Error;
use std::alloc::{AllocError, AllocFailed};

/// Why a call of the store was not carried out.
#[derive(Clone, Copy, Drop, PartialEq, Eq)]
pub enum StoreFault {
    /// A growth was refused.
    Memory,
    /// The database refused it, or its disk failed.
    Storage,
    /// The tables stand for no fit office in any edition.
    Damaged,
}

impl From<TableFault> for StoreFault {
    ghost from_gives = { λ e fault. fault ≡ of_table e };

    fn from(fault: TableFault) -> StoreFault {
        match fault {
            TableFault::Memory => StoreFault::Memory,
            TableFault::Storage => StoreFault::Storage,
        }
    }
}

impl From<Error> for StoreFault {
    ghost from_gives = { λ e fault. fault ≡ of_table (fault_of e) };

    fn from(error: Error) -> StoreFault {
        TableFault::from(error).into()
    }
}

impl From<RowsFault> for StoreFault {
    ghost from_gives = { λ e fault. fault ≡ of_rows e };

    fn from(fault: RowsFault) -> StoreFault {
        match fault {
            RowsFault::Memory => StoreFault::Memory,
            RowsFault::Unfit => StoreFault::Damaged,
        }
    }
}

impl<T: Drop> From<AllocFailed<T>> for StoreFault {
    ghost from_gives = { λ _ fault. fault ≡ Memory };

    fn from(_error: AllocFailed<T>) -> StoreFault {
        StoreFault::Memory
    }
}

impl From<AllocError> for StoreFault {
    ghost from_gives = { λ _ fault. fault ≡ Memory };

    fn from(_error: AllocError) -> StoreFault {
        StoreFault::Memory
    }
}
