//! What the changes of a request are, and what they make of a fit office and of the rows of its tables.
//!
//! Nothing here decides a request or holds an office: `office` does, and makes its changes with these functions. The rows are those of
//! `office_model`: of each table a list of rows, in whatever order.
//!
//! Promised: a list's, an opening's and a reopening's changes are those of the request; the rows of a fit office have different keys in
//! each table, and no other fit office has the same rows (`rows_law`); and the changes of a request that is not refused bring only rows
//! that their tables take (`allowed_law`, `specs/changes/Allowed.antt`). Begin with `specs/changes/Laws.antt`. Crates above use these
//! lemmas too: a fit office stays fit (`proofs/changes/StaysFit.antt`), the changes of a plain request that is not refused transform its
//! rows into those of the office after it (`proofs/changes/PlainTransforms.antt`), so does the row of an import that is stored
//! (`proofs/changes/OneRow.antt`), and so do changes one after another (`proofs/changes/Changes.antt`).
#![tactic(auto)]

mod making;

pub use making::{kept_placements, list_changes, opening_changes, reopening_changes};
