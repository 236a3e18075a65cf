//! What the lines on round files make of a text: the result that they print, or why there is none.
//!
//! Nothing here reads a file, writes or knows the command line: `cli` does. The work is done by the crates below: `intake`
//! reads and writes the texts, `solver` finds a matching with prices, `verdict` checks them.
//!
//! Promised: what `solved` prints is the round of its text with a matching and prices that prove it best by the text's aim;
//! what `checked` prints is size and profile of the text's matching exactly where its prices prove it best by this aim,
//! and else the first condition that fails. Of a public text `checked` prints what everybody's check says of it, and
//! `checked_own` what a student's own check does; `published` prints the public text of a round. Begin with `specs/Rounds.antt`
//! and `specs/Public.antt`.
#![tactic(auto)]

mod public;
mod rounds;

pub use public::{checked_own, published};
pub use rounds::{Trouble, checked, solved};
