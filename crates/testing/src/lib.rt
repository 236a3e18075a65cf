//! What each crate of tests shares: tables of text, how a row fails, and readers and writers in pieces; requests that are played at a
//! desk, its tables, and a small school.
#![tactic(auto)]

pub mod cells;
mod hand_made;
pub mod judged;
pub mod kept;
pub mod offices;
pub mod opened;
pub mod pieces;
pub mod played;
pub mod school;
