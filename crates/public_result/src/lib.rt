//! Checks a result that is posted without the students' lists.
//!
//! What is posted says what each student is assigned, and prices of projects and supervisors. Everybody checks with
//! `check_public`, and each student checks with `check_own` and the own list, which nobody else has to see. Where all
//! these accept, what is posted is best for those lists by the aim, greedy maximum or generous maximum, whoever made it.
//!
//! The prices are those of a market: at them everybody has the best that the own list offers, and what has room is free.
//! `publish` makes what is posted, with the greatest such prices that are found, since they say least of the lists.
//!
//! Promised: each check accepts exactly where its conditions hold, else names the first that fails. `posted_law` says that
//! what all accept is best, `accepted_law` that what is posted of a proved result is accepted, and `any_law` that its
//! prices serve each best matching. That the prices are the greatest is not. Begin in `specs/Posted.antt`.
#![tactic(auto)]

mod greatest;
mod laws;
mod own;
mod posted;
mod posting;
mod prices;
mod public;
mod publishing;
mod quotas;
mod shape;

pub use laws::{accepted_law, any_law, posted_law};
pub use own::{OwnFault, check_own, place_of};
pub use posted::Posted;
pub use posting::post;
pub use public::{PublicFault, check_public};
pub use publishing::publish;
