//! Why rows are not those of an office.

ghost use Rattle.std.specs.Prelude.{◌≡◌};
ghost use Rattle.office.specs.declared.from_rows.fault.RowsFault.TheVariants.{Memory};
ghost use Rattle.office.specs.from_rows.Inside.Gathering.{fault_of_text};

use spa::TextFault;
use std::alloc::AllocError;

/// Why rows are not those of an office.
#[derive(Drop, Clone, Copy, PartialEq, Eq)]
pub enum RowsFault {
    /// An allocation failed.
    Memory,
    /// No office has these rows.
    Unfit,
}

impl From<AllocError> for RowsFault {
    ghost from_gives = { λ _ e. e ≡ Memory };

    fn from(_error: AllocError) -> Self {
        RowsFault::Memory
    }
}

impl From<TextFault> for RowsFault {
    ghost from_gives = { λ fault e. e ≡ fault_of_text fault };

    fn from(fault: TextFault) -> Self {
        match fault {
            TextFault::Memory => RowsFault::Memory,
            TextFault::Form => RowsFault::Unfit,
        }
    }
}
