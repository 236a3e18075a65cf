//! What a line does at a desk.

ghost use Rattle.std.specs.Prelude.{◌≡◌, ◌≢◌, ◌⊎◌, ◌+◌, IfOk, IfErr, MatchResult};
ghost use Rattle.web.specs.Connections.{Connect};
ghost use Rattle.web.specs.Serving.{AnswersFrom};
ghost use Rattle.cli.specs.Outputs.{CanFail, both_failures};
ghost use Rattle.cli.specs.Outcomes.{Prints, IsServed, IsUnbound, ServesBehind};
ghost use Rattle.cli.specs.Databases.{ComesFrom, CutsOff, TakesTo};

use crate::outputs::Outputs;
use crate::status::Status;
use crate::texts::labelled;
use desk::Desk;
use host::{Door, Ports};
use office_model::Request;
use sqlite::Alter;
use std::alloc::Global;
use std::io;
use web::{Sink, serve_on, write_all};

/// What a line does at the office of a database.
#[derive(Drop)]
pub(crate) enum Task {
    /// It asks a request.
    Ask(Request),
    /// It serves connections.
    Serve(Serving),
}

/// A count of connections to a port of the loopback address.
#[derive(Clone, Copy, Drop)]
pub(crate) struct Serving {
    /// The port, or 0 for any that is free.
    pub(crate) port: u16,
    /// The number of connections.
    pub(crate) count: u32,
}

/// Returns the status of a service: a failure where fewer were served than asked for.
fn status_after(served: u32, count: u32) -> Status
    ensures { ((served ≡ count) × (result ≡ Status.Success)) ⊎ ((served ≢ count) × (result ≡ Status.Failure)) }
{
    if served == count {
        Status::Success
    } else {
        Status::Failure
    }
}

/// Serves connections of a port at a desk, and writes a line of each after that of the port, or prints that it could not be bound.
fn serve_bound<S: Alter, D: Door, O: Sink, E: Sink>(
    alloc: Global,
    desk: &mut Desk<S>,
    bound: io::Result<D>,
    serving: Serving,
    outputs: &mut Outputs<O, E>,
) -> Status
    requires { CanFail outputs.old }
    ensures printed { Prints (λ o. MatchResult bound (λ door. IsServed (AnswersFrom S.Store) (D.peers door) serving.port serving.count desk.old desk.new o) (λ _. IsUnbound serving.port desk.old desk.new o)) outputs.old outputs.new result }
    ensures served { IfOk bound (λ door. (came : _) × Connect (AnswersFrom S.Store) (D.peers door) desk.old came desk.new) }

    // Where no port is bound nothing is done at the desk.
    ensures unbound { IfErr bound (λ _. desk.new ≡ desk.old) }

    // Nobody is served before the line of the port is out.
    ensures cut { both_failures outputs.new ≡ both_failures outputs.old + 1 → IfOk bound (λ door. ServesBehind (AnswersFrom S.Store) (D.peers door) serving.port serving.count desk.old desk.new outputs.old.out.written outputs.new.out.written) }
{
    let Ok(mut door) = bound else {
        return outputs.print_err(
            labelled(b"no port ", u32::from(serving.port)).as_slice(),
            Status::Failure,
        );
    };
    let Ok(()) = write_all(
        &mut outputs.out,
        labelled(b"listening ", u32::from(serving.port)).as_slice(),
    ) else {
        return Status::Failure;
    };
    match serve_on(alloc, desk, &mut door, serving.count, &mut outputs.out) {
        Ok(served) => status_after(served, serving.count),
        Err(_) => Status::Failure,
    }
}

/// Does a task at a desk, and prints what comes of it.
pub(crate) fn perform<S: Alter, P: Ports, O: Sink, E: Sink>(
    alloc: Global,
    ports: P,
    desk: &mut Desk<S>,
    task: Task,
    outputs: &mut Outputs<O, E>,
) -> Status
    requires { CanFail outputs.old }
    ensures printed { Prints (ComesFrom S.Store (P.state ports) task desk.old desk.new) outputs.old outputs.new result }
    ensures taken { TakesTo S.Store (P.state ports) task desk.old desk.new }
    ensures cut { CutsOff S.Store (P.state ports) outputs.old outputs.new task desk.old desk.new }
{
    match task {
        Task::Ask(asked) => match desk.ask(asked) {
            Ok(reply) => outputs.print_reply(&reply),
            Err(refusal) => outputs.refuse(refusal),
        },
        Task::Serve(serving) => {
            let bound = ports.bind(serving.port);
            serve_bound(alloc, desk, bound, serving, outputs)
        }
    }
}
