//! The SQL of the product: what describes each table, and a function for each statement over any of them. A cell is given as
//! the database's value.
//!
//! Nothing here knows an office. `store`, one crate above, says what the rows mean, and puts the
//! statements together into transactions. Each function here makes one call of the database, or two,
//! and changes at most one table by it.
//!
//! Promised: under any schema that lists a table as it is made here, STRICT or not and with references that
//! may name no column, whatever else it lists, a statement that went through made one exact edit of its table,
//! and left all other tables as they were; what that makes of the rows is a law (`rows_law`); a reading shows
//! the rows, and changes nothing. The words are in `specs/Table.antt` (the tables as a schema lists them),
//! `specs/Outcomes.antt` (what a statement comes to), `specs/Writes.antt` and `specs/Steps.antt`; begin there.
//!
//! A table that is made is STRICT, its references name their columns, and it has the CHECK rules that are declared; one that is found keeps
//! its own. A further table is a variant of `Table` with its kinds and its key in `schema`, its shape and its texts in `table.rt` and in
//! `specs/Table.antt`, and the reading of its five texts in `proofs/Tables.antt`: what statements do is proved for all.
#![tactic(auto)]

pub mod fault;
pub mod inert;
mod laws;
pub mod layout;
mod read;
pub mod ready;
pub mod statements;
mod table;
mod write;

pub use laws::rows_law;
pub use schema::Table;
