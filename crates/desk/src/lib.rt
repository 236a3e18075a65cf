//! An office and its tables together: one request is one step, and the tables stand for the office after
//! it.
//!
//! The office stands in memory next to the tables. A request that the office refuses, or that reads, needs
//! no table. A change works on a copy of the office, saves its changes in one transaction, and the copy
//! becomes the office only after that. It knows no SQL and no HTTP. The first preview of a round starts a session, and later ones
//! are read from it: a student's first list joins it, and every other change that a preview could show ends it.
//!
//! Promised: `Desk::run` answers every list of requests by a run of the abstract office, `Desk::ask` one
//! request by a step; a refused request changes nothing; the tables stand for the office between any two
//! calls; a session that is cached has what the open round has, and its relaxations are returned (`Desk::session_steps`);
//! and what a crash leaves at each exit is said: opened again it is the office before, or one that the request
//! or some beginning of the run makes of it (`crash_law`). Begin with `desk.rt`, `specs/Keeping.antt` and `specs/Sessions.antt`.
#![tactic(auto)]

mod desk;
mod laws;
mod layers;
mod persistent;
mod sessions;

pub use desk::Desk;
pub use laws::{crash_law, lasting_law};
