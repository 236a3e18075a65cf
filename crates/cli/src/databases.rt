//! What a line does at the office of a database, which is opened for it and closed after it.

ghost use Rattle.std.specs.Prelude.{◌≡◌};
ghost use Rattle.sqlite.specs.Held.{state};
ghost use Rattle.store.specs.Tables.{HasNone};
ghost use Rattle.cli.specs.Outputs.{CanFail};
ghost use Rattle.cli.specs.Outcomes.{Prints};
ghost use Rattle.cli.specs.Databases.{CutsOver, DoesOver, DoneAt, PrintsOver, LeftBy, IsNamedFirst};

use crate::opening::{Closing, close_file, open_file};
use crate::outputs::Outputs;
use crate::status::Status;
use crate::tasks::{Task, perform};
use desk::Desk;
use host::{Ports, World};
use sqlite::{Alter, Connection};
use std::alloc::Global;
use store::has_none;
use web::Sink;

/// Does a task at the office of a database, or prints the refusal of its opening, and gives the connection back.
///
/// It takes any store, and so do those who hold the desk: a desk over a store of files by name takes the prover a minute in each function
/// that holds one. A task that is not done is handed to `drop`, since each kind of request would else be a path here.
fn open_and_perform<S: Alter + Drop, P: Ports, O: Sink, E: Sink>(
    alloc: Global,
    ports: P,
    connection: Connection<S>,
    task: Task,
    outputs: &mut Outputs<O, E>,
) -> (Status, Connection<S>)
    requires { CanFail outputs.old }
    ensures printed { Prints (DoesOver S.Store (P.state ports) task connection result.1) outputs.old outputs.new result.0 }

    // Where a writer has failed no outcome is printed, and it is still known what is left.
    ensures left { LeftBy S.Store (P.state ports) task result.0 connection result.1 }
    ensures cut { CutsOver S.Store (P.state ports) outputs.old outputs.new task connection result.1 }
{
    match Desk::open(alloc, connection) {
        Ok(mut desk) => {
            let status = perform(alloc, ports, &mut desk, task, outputs);
            (status, desk.into_connection())
        }
        Err((refusal, connection)) => {
            drop((ports, task));
            (outputs.refuse(refusal), connection)
        }
    }
}

/// Does the same at the office of a database with this name, which is printed first where none of the tables is there yet. Where that
/// cannot be printed, nothing is done.
fn announce_and_perform<S: Alter + Drop, P: Ports, O: Sink, E: Sink>(
    alloc: Global,
    ports: P,
    name: &str,
    connection: Connection<S>,
    task: Task,
    outputs: &mut Outputs<O, E>,
) -> (Status, Connection<S>)
    requires { CanFail outputs.old }
    ensures printed { Prints (PrintsOver S.Store (P.state ports) name.now task connection result.1) outputs.old outputs.new result.0 }
    ensures left { LeftBy S.Store (P.state ports) task result.0 connection result.1 }
    ensures named { HasNone (state S.Store connection).now.schema → IsNamedFirst name.now (result.1 ≡ connection) outputs.old outputs.new }
    ensures cut { CutsOver S.Store (P.state ports) outputs.old outputs.new task connection result.1 }
{
    if !has_none(connection.schema()) {
        return open_and_perform(alloc, ports, connection, task, outputs);
    }
    let Ok(()) = outputs.print_new(name) else {
        drop((ports, task));
        return (Status::Failure, connection);
    };
    open_and_perform(alloc, ports, connection, task, outputs)
}

/// Does a task at the office of the database file with this name, or prints the refusal of the opening.
/// Prints first that the database is new, where it is. Closes the file then, and gives back what came of it: its log is copied into it.
///
/// A closing that fails changes neither what was printed nor the status: what was changed is in the log next to the file, where
/// the next opening finds it.
pub(crate) fn perform_on_file<W: World, O: Sink, E: Sink>(
    alloc: Global,
    world: W,
    database: &str,
    task: Task,
    outputs: &mut Outputs<O, E>,
) -> (Status, Option<Closing<W::File>>)
    requires { CanFail outputs.old }
    ensures { DoneAt (W.state world) database.now task result.1 outputs.old outputs.new result.0 }
{
    match open_file(world, database) {
        Ok((connection, ports)) => {
            let (status, connection) = announce_and_perform(
                alloc, ports, database, connection, task, outputs,
            );
            (status, Some(close_file(connection)))
        }
        Err(refusal) => {
            drop(task);
            (outputs.refuse(refusal), None)
        }
    }
}
