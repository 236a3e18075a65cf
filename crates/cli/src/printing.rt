//! What is printed on standard output or standard error, and the status.

ghost use Rattle.std.specs.Prelude.{◌≡◌, ◌-◌, ◌^◌, ◌<◌, ◌+◌, OnOk, OnErr};
ghost use Rattle.std.specs.Io.KnownBytes.{Appends};
ghost use Rattle.cli.specs.Outputs.{CanFail, IsCut};
ghost use Rattle.cli.specs.Outcomes.{Printed, Prints, new_database, refusal_line, of_round, printed_reply};

use crate::outputs::Outputs;
use crate::status::Status;
use crate::texts::{bad_line, closed_line, labelled, refusal_line};
use office_model::{Refusal, Reply};
use round_files::Trouble;
use web::{Sink, StreamFault, write_all};

/// Writes a text, and gives the status, or that of a failure where it could not be written.
pub(crate) fn print<W: Sink>(out: &mut W, text: &[u8], status: Status) -> Status
    requires { W.failures out.old < 2 ^ 64 - 1 }
    ensures { Printed text.now status (W.written out.old) (W.written out.new) (W.failures out.old) (W.failures out.new) result }
{
    match write_all(out, text) {
        Ok(()) => status,
        Err(_) => Status::Failure,
    }
}

/// Writes a refusal, and gives its status.
pub(crate) fn refuse<W: Sink>(err: &mut W, refusal: Refusal) -> Status
    requires { W.failures err.old < 2 ^ 64 - 1 }
    ensures { Printed (refusal_line refusal) Status.Failure (W.written err.old) (W.written err.new) (W.failures err.old) (W.failures err.new) result }
{
    print(err, refusal_line(refusal).as_slice(), Status::Failure)
}

/// Writes the name of a database that is new. A name has any length, so nothing is allocated for it.
pub(crate) fn write_new<W: Sink>(err: &mut W, name: &str) -> Result<(), StreamFault>
    requires { W.failures err.old < 2 ^ 64 - 1 }
    ensures ok { OnOk result ((W.failures err.new ≡ W.failures err.old) × Appends (W.written err.old) (W.written err.new) (new_database name.now)) }
    ensures err { OnErr result ((W.failures err.new ≡ W.failures err.old + 1) × IsCut (new_database name.now) (W.written err.old) (W.written err.new)) }
{
    write_all(err, b"new ")?;
    write_all(err, name.as_bytes())?;
    write_all(err, b"\n")
}

/// Writes what is printed of an answer.
pub(crate) fn print_reply<W: Sink>(out: &mut W, reply: &Reply) -> Status
    requires { W.failures out.old < 2 ^ 64 - 1 }
    ensures { Printed (printed_reply reply.now) Status.Success (W.written out.old) (W.written out.new) (W.failures out.old) (W.failures out.new) result }
{
    match reply {
        Reply::Rows(rows) => print(out, labelled(b"rows ", *rows).as_slice(), Status::Success),
        Reply::Opened { round } => print(
            out,
            labelled(b"round ", *round).as_slice(),
            Status::Success,
        ),
        Reply::Closed {
            round,
            size,
            profile,
        } => print(
            out,
            closed_line(*round, *size, profile).as_slice(),
            Status::Success,
        ),
        Reply::Text(text) => print(out, text.as_str().as_bytes(), Status::Success),
        Reply::Done
        | Reply::Supervisor { .. }
        | Reply::Project { .. }
        | Reply::Student { .. }
        | Reply::Round { .. }
        | Reply::Preview { .. } => print(out, b"", Status::Success),
    }
}

/// Prints what came of the text of a round file.
pub(crate) fn print_round<O: Sink, E: Sink>(
    came: Result<String, Trouble>,
    outputs: &mut Outputs<O, E>,
) -> Status
    requires { CanFail outputs.old }
    ensures { Prints (λ o. o ≡ of_round came) outputs.old outputs.new result }
{
    match came {
        Ok(text) => outputs.print(text.as_bytes(), Status::Success),
        Err(Trouble::Failed(text)) => outputs.print(text.as_bytes(), Status::Failure),
        Err(Trouble::Refused(refusal)) => outputs.refuse(refusal),
        Err(Trouble::BadLine(number)) => outputs.print_err(
            bad_line(number).as_slice(),
            Status::Failure,
        ),
    }
}
