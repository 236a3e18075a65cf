//! What closing a round makes: the instance of the open round, the placements of a matching of it, and the changes of the
//! tables.
//!
//! Promised: the parts of a fit office give the instance of its last round, and only running out of memory keeps it from being
//! made; places of a matching give the placements that the office keeps, and these the changes of the tables. An office whose round
//! closes with a matching stays fit, and the changes transform its rows and bring only such as the tables take (`closing_law`,
//! `places_law`). Begin with `specs/closing/Laws.antt`.
#![tactic(auto)]

mod keeping;
mod making;

pub use keeping::{close_changes, placements_after, placements_of};
pub use making::{is_offered_by, placed_in_project, placed_with_supervisor, round_instance};
