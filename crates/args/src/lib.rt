//! The words of a command line, and the line of the program that they stand for.
//!
//! Each line is described once, as a row of a table: its name, what help says of it, and its arguments. The command that `clap`
//! reads the words by is made of that table, and of what `clap` read a `Line` is made. What a line does is `cli`'s matter.
//!
//! Promised: a line is given only where `clap`'s reading of the words gives its name and its values, and the words are
//! refused only where that reading fails. Begin with `specs/Table.antt`, then `specs/Reading.antt`.
#![tactic(auto)]

mod kinds;
mod line;
mod program;
mod reading;
mod table;
mod version;

pub use line::{Line, LineFault};
pub use reading::command;
