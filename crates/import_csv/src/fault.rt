//! Why a text is no import.
#![tactic(auto)]

ghost use Rattle.std.specs.Prelude.{◌≡◌};
ghost use Rattle.import_csv.specs.declared.fault.ImportFault.TheVariants.{Memory};

use std::alloc::AllocError;

/// Why a text was not read as an import.
#[derive(Clone, Copy, PartialEq, Eq, Drop)]
pub enum ImportFault {
    /// An allocation failed.
    Memory,
    /// The first record is not the header of the kind, or there is no record, or a quote has no partner. This is judged
    /// before any other record.
    Header,
    /// The first record, counted from 1 after the header, that has another number of fields than the header. This is
    /// judged before any field.
    Fields { record: usize },
}

impl From<AllocError> for ImportFault {
    ghost from_gives = { λ _ e. e ≡ Memory };

    fn from(_: AllocError) -> ImportFault {
        ImportFault::Memory
    }
}
