//! Plays offices in memory, and commands of the program and requests over HTTP over the files of databases.
//!
//! The arguments name files of rows. A row that gives something else than it says is printed with what it gave, and after each file how
//! many of its rows were compared. `docs/TESTS.md` says what a row may be. A further row costs no proof.
//!
//! Where `as-spadesk` comes last, it does with its arguments, once all files were played, what the program does with its own. They are no
//! command, so it ends with status 2, by which the gate sees that the program reads its arguments and ends with the status of a fault.
#![tactic(auto)]

// Offices in memory.
mod in_memory;
// Texts that are written out of a row, and what a row says is done.
mod texts;
// Requests at the desk of a database file, and SQL over it.
mod over_files;
// Rows in order.
mod row_files;
// Why rows are not played to their end.
mod unplayed;

use cli::start;
use row_files::play_file;
use std::env;
use std::process::ExitCode;
use std::rt::HostRuntime;
use unplayed::Unplayed;

/// Plays each file that an argument names. Whether the last argument stands for the program.
fn play_all(rt: &HostRuntime) -> Result<bool, Unplayed> {
    let words: Vec<String> = env::args(rt)?.collect(rt.alloc())?;
    for name in words.iter().skip(1) {
        if name.as_str() == "as-spadesk" {
            return Ok(true);
        }
        play_file(rt, name)?;
    }
    Ok(false)
}

fn main(rt: HostRuntime) -> ExitCode {
    match play_all(&rt) {
        Ok(true) => start(rt.alloc(), rt),
        Ok(false) => ExitCode::SUCCESS,
        Err(_) => ExitCode::FAILURE,
    }
}
