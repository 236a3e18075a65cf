//! The office as tables.
//!
//! A `Store` is a database whose tables hold the rows of an office. It decides nothing of the office, and
//! has no SQL: `office` judges rows, and `sql_tables` has the statements.
//!
//! Promised: `open` gives the office that the tables stand for, or calls them damaged where they stand for
//! none; a database with none of the tables gets them in one transaction; `save` makes changes in
//! one transaction, and touches only the rows that they name; after a fault everything is as before; and each
//! says what a crash leaves, which opens as the office that its tables stand for (`opening_law`). Other tables
//! are left alone. `has_none` says whether a database is new. Begin with `specs/Tables.antt`, then `store.rt`.
//!
//! A further table of rows is one more of `TABLES`, with the editions that have it (`rolls_of`) and that lack it (`beyond`); a further
//! edition is an arm each in `edition.rt` and `migration.rt`, and in `specs/Editions.antt` and `specs/Migration.antt`.
#![tactic(auto)]

mod all_tables;
mod edition;
mod fault;
mod laws;
mod migration;
mod quiet;
mod reading;
mod rows;
mod store;
mod transaction;

pub use edition::{Edition, has_none};
pub use fault::StoreFault;
pub use laws::{available_law, founding_law, opening_law, reopening_law};
pub use store::Store;
