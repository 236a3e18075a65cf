//! The lines of the program: what each does, what it prints where, and its status.
//!
//! The words of a line become a `Line` in `args`. Here a file becomes its bytes, a database the desk that keeps its
//! tables, and a result, an answer or a fault becomes a text on standard output or standard error with a status.
//!
//! Promised: what is printed, where and with which status is an outcome of the line that `clap` reads from the words: a
//! round file's result, or the answer of one step of a fit office, or the lines of the connections served; where a
//! writer fails the status is 1. A request is asked of the office that the database stood for, unless the disk gave back
//! what was not written. The database is closed after what is printed: its file alone stands for the office then, or it is
//! known why not. Arguments that cannot be read are reported too. Without arguments a stream is served over a new database,
//! from the empty office on. Begin with `specs/Outcomes.antt`, `specs/Outputs.antt` and `specs/Anew.antt`.
#![tactic(auto)]

mod databases;
mod files;
mod importing;
mod laws;
mod opening;
mod outputs;
mod printing;
mod program;
mod rounds;
mod run;
mod status;
mod tasks;
mod texts;

pub use laws::{printed_law, solve_law, task_law};
pub use opening::Closing;
pub use outputs::Outputs;
pub use program::{run_program, serve_anew, start};
pub use run::run_command;
pub use status::Status;
