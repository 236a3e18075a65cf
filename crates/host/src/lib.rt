//! The outside of the program: files by their names, the file of a database, who connects to a port, and the standard streams.
#![tactic(auto)]

mod files;
mod hosts;
mod machine;
mod worlds;

pub use files::read_up_to;
pub use hosts::Host;
pub use machine::Machine;
pub use worlds::{Door, Ports, World};
