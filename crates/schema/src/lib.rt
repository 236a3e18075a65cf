//! The tables of the product, their rows, and what changes make of them.
//!
//! A row is a table and its cells; of each table there is a list of rows, in whatever order, as SQL has them. Nothing here knows an office,
//! nor SQL: `office_model` says which rows an office has, and `sql_tables` how a table is declared to a database. Both stand on this crate,
//! so they are proved side by side. Begin with `specs/Rows.antt`, then `Changes`.
//!
//! Promised: a row has a cell of its kind for each column of its table, and a part those that name its rows.
#![tactic(auto)]

mod cell;
mod row;
mod shared;
mod table;
mod text;

pub use cell::{Bytes, Cell, Kind};
pub use row::{Change, Group, Part, Row};
pub use shared::Shared;
pub use table::Table;
pub use text::{Text, Texts};
