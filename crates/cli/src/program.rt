//! The program: a line where there are arguments, or else standard input served over a new database in memory.

ghost use Rattle.std.specs.Prelude.{◌≡◌, ◌-◌, ◌^◌, ◌<◌, IsTrue, false};
ghost use Rattle.std.specs.Process.{exit_status};
ghost use Rattle.cli.specs.Outputs.{CanFail, both_of};
ghost use Rattle.cli.specs.Anew.{ServedAnew, BrokenAnew};
ghost use Rattle.std.specs.IoError.{error_kind};
ghost use Rattle.cli.specs.Begun.{IsAllDone, IsStarted, OfUnread};
ghost use Rattle.cli.specs.Outcomes.{Prints};

use crate::opening::Closing;
use crate::outputs::Outputs;
use crate::run::run_command;
use crate::status::Status;
use crate::texts::NOT_UTF8;
use desk::Desk;
use host::{Host, World};
use office_model::Refusal;
use sqlite::Connection;
use std::alloc::Global;
use std::io::{self, ErrorKind};
use std::process::ExitCode;
use web::{Sink, Source, serve_stream};

/// Serves a stream over a new database in memory, from the empty office on, and returns whether it was served to its end.
///
/// It is not where memory runs out for the database, and where reader or writer fails.
pub fn serve_anew<R: Source, W: Sink>(alloc: Global, reader: &mut R, writer: &mut W) -> bool
    requires read_failures { R.failures reader.old < 2 ^ 64 - 1 }
    requires open { R.ended reader.old ≡ false }
    requires write_failures { W.failures writer.old < 2 ^ 64 - 1 }
    ensures served { IsTrue result → ServedAnew (R.left reader.old) (W.written writer.old) (R.left reader.new) (W.written writer.new) }
    ensures broken { result ≡ false → BrokenAnew (R.left reader.old) (W.written writer.old) (R.left reader.new) (W.written writer.new) }
{
    let Ok(connection) = Connection::open_in_memory(alloc) else {
        return false;
    };
    let Ok(mut desk) = Desk::open(alloc, connection) else {
        return false;
    };
    match serve_stream(alloc, &mut desk, reader, writer) {
        Ok(_) => true,
        Err(_) => false,
    }
}

/// Prints why the words of the command line cannot be read: where memory ran out for them as a refusal, and else as a fault of the command,
/// since one of them is not UTF-8.
fn print_unread<O: Sink, E: Sink>(error: io::Error, outputs: &mut Outputs<O, E>) -> Status
    requires { CanFail outputs.old }
    ensures { Prints (OfUnread (error_kind error)) outputs.old outputs.new result }
{
    if error.kind() == ErrorKind::OutOfMemory {
        outputs.refuse(Refusal::Memory)
    } else {
        outputs.print_err(NOT_UTF8.as_bytes(), Status::Usage)
    }
}

/// Does all that the program does in a world: the line of its words, the program's name first, as `run_command` does; where there is no
/// other word, serves the reader's stream to standard output, as `serve_anew` does; where they cannot be read, prints why, as
/// `print_unread` does. Gives the status of the program, which is a failure for a stream that was not served to its end. What came of
/// closing a database file is given back next to it.
pub fn run_program<W: World, R: Source, O: Sink, E: Sink>(
    alloc: Global,
    world: W,
    reader: &mut R,
    outputs: &mut Outputs<O, E>,
) -> (Status, Option<Closing<W::File>>)
    requires reader { R.failures reader.old < 2 ^ 64 - 1 }
    requires open { R.ended reader.old ≡ false }
    requires outputs { CanFail outputs.old }

    // A line does not read the stream, and a stream opens no file. Where the words cannot be read neither is touched.
    ensures done { IsAllDone (W.state world) reader.old reader.new (R.left reader.old) (R.left reader.new) result.1 outputs.old outputs.new result.0 }
{
    let words = match world.words() {
        Ok(words) => words,
        Err(error) => return (print_unread(error, outputs), None),
    };
    if words.len() > 1 {
        return run_command(alloc, world, &words, outputs);
    }
    if serve_anew(alloc, reader, &mut outputs.out) {
        (Status::Success, None)
    } else {
        (Status::Failure, None)
    }
}

/// Does all that the program does with what a host lends it, as `run_program` does, gives the streams back, and returns its status. The
/// host is the machine.
pub fn start<H: Host>(alloc: Global, mut host: H) -> ExitCode
    ensures { IsStarted H.World.File H.World.File.Disk H.World.state H.In.left (both_of H.Out.written H.Out.failures H.Err.written H.Err.failures)
        (H.lends host) (H.takes host) (exit_status result) }
{
    let (world, mut input, out, err) = host.lend();
    let mut outputs = Outputs::new(out, err);
    let (status, _closing) = run_program(alloc, world, &mut input, &mut outputs);
    let (out, err) = outputs.into_parts();
    host.take(input, out, err);
    ExitCode::from(status.number())
}
