//! What a request means: which refusal it gets, what it makes of the office, and what changes with it
//! in the tables.
//!
//! An `Office` holds the rolls in memory and knows no database and no protocol. Its value is the
//! abstract office of `office_model`, and it is fit by construction: each code stands once, no roll is too
//! long, and whatever an entry names is there.
//!
//! Promised: `refusal_of` names the first refusal that applies, and allocates nothing; `apply` makes
//! exactly the step of the request, with exactly its changes in their order, which transform the rows of the
//! office before into those of the office after; after a refusal the office is as before; `from_rows`
//! gives the office of the rows, and calls rows unfit only where no office has them. Begin with
//! `office.rt`.
#![tactic(auto)]

pub mod changes;
pub mod closing;
pub mod from_rows;
mod laws;
mod making;
mod office;

pub use from_rows::RowsFault;
pub use laws::{allowed_law, closing_law, places_law, rows_law};
pub use office::Office;
pub use office_model::{Change, Done, Plain, Refusal, Reply, Request, Row};
