//! The rolls of an office, and the words in which the office is spoken of: what is asked of it, what
//! it answers, why it refuses, and the rows that its tables have.
//!
//! Nothing here decides a request: `office` does, one crate above. The types are values that every
//! crate above takes as given, and `specs/` has the definitions that their contracts cite: begin with
//! `specs/State.antt` (what the office holds), then `Meaning` and `Run`.
//!
//! Promised: `Entries` are a finite map whose entries are lent in the order of their keys, copies of it share
//! them, and each refusal has its number. Entries say which row they are.
#![tactic(auto)]

mod counting;
mod entries;
mod import;
mod keys;
mod laws;
mod refusal;
mod report;
mod request;
mod rounds;
mod rows;
mod sorted;

pub use counting::counted;
pub use entries::{Project, Student, Supervisor};
pub use import::{Import, ImportKind};
pub use laws::{entries_law, limits};
pub use refusal::Refusal;
pub use report::ReportKind;
pub use request::{Done, Plain, Reply, Request};
pub use rounds::{Choices, Listed, Placement, Round, RoundAim};
pub use rows::{choice_row, list_part, placed_part, round_row};
pub use schema::{Bytes, Cell, Change, Group, Part, Row, Shared, Table, Text, Texts};
pub use sorted::{Entries, Entry, find};

/// The most rounds of an office.
pub const MAX_ROUNDS: u32 = 12;

/// The most imports that an office keeps.
pub const MAX_IMPORTS: usize = 200;

/// The most bytes of an import text, and so the most rows of an import.
pub const MAX_IMPORT_BYTES: usize = 65_536;
