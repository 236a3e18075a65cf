//! A whole line: its words, what it prints, and its status.

ghost use Rattle.std.specs.Prelude.{map, string_bytes};
ghost use Rattle.cli.specs.Outputs.{CanFail};
ghost use Rattle.cli.specs.Databases.{LineAt, WordsAt};

use crate::databases::perform_on_file;
use crate::importing::{ask_made, import_file};
use crate::opening::Closing;
use crate::outputs::Outputs;
use crate::rounds::{RoundTask, run_on_round_file};
use crate::status::Status;
use crate::tasks::{Serving, Task};
use args::{Line, LineFault, command};
use host::World;
use office_model::{Plain, Refusal, Request};
use std::alloc::Global;
use web::Sink;

/// Does a line, and prints what comes of it. A file is read first, then a database is opened, then a port is bound, and then the
/// request is judged.
fn run_line<W: World, O: Sink, E: Sink>(
    alloc: Global,
    world: W,
    line: Line,
    outputs: &mut Outputs<O, E>,
) -> (Status, Option<Closing<W::File>>)
    requires { CanFail outputs.old }
    ensures { LineAt (W.state world) line result.1 outputs.old outputs.new result.0 }
{
    match line {
        Line::Serve {
            database,
            port,
            count,
        } => perform_on_file(
            alloc,
            world,
            &database,
            Task::Serve(Serving { port, count }),
            outputs,
        ),
        Line::Import {
            database,
            kind,
            id,
            file,
        } => {
            let made = import_file(alloc, &world, kind, &id, &file);
            ask_made(alloc, world, &database, made, outputs)
        }
        Line::OpenRound { database, aim } => {
            let asked = Request::Plain(Plain::OpenRound { aim });
            perform_on_file(alloc, world, &database, Task::Ask(asked), outputs)
        }
        Line::ReopenRound(database) => {
            let asked = Request::Plain(Plain::ReopenRound);
            perform_on_file(alloc, world, &database, Task::Ask(asked), outputs)
        }
        Line::CloseRound(database) => perform_on_file(
            alloc,
            world,
            &database,
            Task::Ask(Request::Close),
            outputs,
        ),
        Line::Report {
            database,
            kind,
            round,
        } => {
            let asked = Request::Report { kind, round };
            perform_on_file(alloc, world, &database, Task::Ask(asked), outputs)
        }
        Line::Solve(file) => (
            run_on_round_file(alloc, &world, RoundTask::Solve, &file, outputs),
            None,
        ),
        Line::Check(file) => (
            run_on_round_file(alloc, &world, RoundTask::Check, &file, outputs),
            None,
        ),
        Line::Publish(file) => (
            run_on_round_file(alloc, &world, RoundTask::Publish, &file, outputs),
            None,
        ),
        Line::CheckOwn { file, own } => (
            run_on_round_file(alloc, &world, RoundTask::CheckOwn(&own), &file, outputs),
            None,
        ),
    }
}

/// Does the line of these words, the program's name first, and gives the status of the program, and what came of
/// closing the database file, where one was opened.
///
/// A result is printed with status 0, and a check that failed with status 1. A refusal, a bad line of a round text or a port
/// that cannot be bound is printed with status 1, a fault of the line with status 2, and help or the version is printed with status 0.
/// Where a writer fails, the status is 1, and what was done stays done; nobody is served before the line of the port is out.
pub fn run_command<W: World, O: Sink, E: Sink>(
    alloc: Global,
    world: W,
    words: &[String],
    outputs: &mut Outputs<O, E>,
) -> (Status, Option<Closing<W::File>>)
    requires { CanFail outputs.old }
    ensures file { WordsAt (W.state world) (map string_bytes words.now) result.1 outputs.old outputs.new result.0 }
{
    match command(alloc, words) {
        Ok(line) => run_line(alloc, world, line, outputs),
        Err(LineFault::Memory) => (outputs.refuse(Refusal::Memory), None),
        Err(LineFault::Help(text)) => (outputs.print(text.as_bytes(), Status::Success), None),
        Err(LineFault::Version(text)) => (outputs.print(text.as_bytes(), Status::Success), None),
        Err(LineFault::Fault(text)) => (outputs.print_err(text.as_bytes(), Status::Usage), None),
    }
}
