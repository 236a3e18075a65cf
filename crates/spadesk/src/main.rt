//! The program: it serves standard input to standard output over a new database in memory, or does the line that its
//! arguments stand for.
//!
//! All of it is `start` of `cli`. Here it is run on a stream.
#![tactic(auto)]

use cli::start;
use std::process::ExitCode;
use std::rt::HostRuntime;

fn main(rt: HostRuntime) -> ExitCode {
    start(rt.alloc(), rt)
}
