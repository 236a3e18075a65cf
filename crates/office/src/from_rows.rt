//! An office from its rows.
//!
//! Rows come in any order. `gather` takes them in stage by stage: first those of all tables but the choices, then the
//! choices at the first place of their lists, then those at the second, and so on; so each choice finds the ones before it.
//! Each kind of row has one reader: it decodes the row's cells, and refuses cells that no entry of an office has, as a
//! truth value or an aim other than 0 and 1, a word that names no kind of imports, or a row of a table of earlier editions.
//! What was taken in is then tested as a whole.
//!
//! Promised: `gather` gives the fit office of these rows: of each table it has the same rows, in whatever order. It calls
//! rows unfit only where no fit office has them. Begin with `specs/from_rows/Inside/Decoded.antt` (the entry that a row decodes to),
//! `specs/from_rows/Inside/Gathering.antt` and `specs/from_rows/Inside/Whole.antt`.
#![tactic(auto)]

mod cells;
mod draft;
mod fault;
mod gathering;
mod quotas;
mod whole;

pub use draft::PartialOffice;
pub use fault::RowsFault;
pub use gathering::gather;
