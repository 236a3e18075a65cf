//! Connections of a port, served at a desk one after another.
ghost use Rattle.std.specs.Io.KnownBytes.{Appends};
ghost use Rattle.std.specs.Prelude.{◌≡◌, ℕ, ◌+◌, ◌≤◌, ◌<◌, ◌-◌, ◌^◌, ◌++◌, length, take, IfOk, OnOk, OnErr};
ghost use Rattle.http_stream.specs.declared.TheConstants.{MAX_SHORT_BODY};
ghost use Rattle.arrayvec.specs.ArrayVec.{array_vec_len};
ghost use Rattle.host.specs.WorldState.{IsPeer};
ghost use Rattle.web.specs.Connections.{Connects, AllServed, SomeServed, end_word, told_visit, connection_line, next_row};
ghost use Rattle.web.specs.Serving.{AnswersFrom};
ghost use Rattle.web.specs.declared.TheConstants.{MAX_UNACCEPTED};

use crate::MAX_UNACCEPTED;
use crate::service::serve_stream;
use arrayvec::ArrayVec;
use desk::Desk;
use host::Door;
use http_api::{push, push_labelled};
use http_stream::{End, Served, ShortText, Sink, StreamFault, write_all};
use sqlite::Alter;
use std::alloc::Global;

/// What became of one who connects, or nothing of one who could not be accepted.
type Visit = Option<Result<Served, StreamFault>>;

/// The writer that lines go to failed: its count of failures grew by one.
#[derive(Clone, Copy, Drop)]
pub struct OutFault;

/// Returns the word for the end of a stream.
fn end_word(end: End) -> &'static [u8]
    ensures word { result.now ≡ end_word end }
    ensures len { length result.now ≤ 10 }
{
    match end {
        End::Closed => b"closed",
        End::Unfinished => b"unfinished",
        End::BadHead => b"bad-head",
        End::TooLarge => b"too-large",
        End::Hundred => b"hundred",
    }
}

/// Appends what is printed of a connection.
fn push_told(out: &mut ShortText, visit: &Visit)
    requires { array_vec_len out.old ≤ MAX_SHORT_BODY }
    ensures items { out.new.items ≡ out.old.items ++ told_visit visit.now }
    ensures len { array_vec_len out.new ≤ array_vec_len out.old + 30 }
{
    match visit {
        Some(Ok(served)) => {
            push_labelled(out, b"", served.answered);
            push(out, b" answers, ");
            push(out, end_word(served.end));
        }
        Some(Err(StreamFault::Memory)) => push(out, b"memory fault"),
        Some(Err(StreamFault::Read)) | None => push(out, b"read fault"),
        Some(Err(StreamFault::Write)) => push(out, b"write fault"),
    }
}

/// Returns the line of the connection with this number. Allocates nothing.
fn connection_line(number: u32, visit: &Visit) -> ShortText
    ensures { result.items ≡ connection_line number visit.now }
{
    let mut line = ArrayVec::new();
    push_labelled(&mut line, b"connection ", number);
    push(&mut line, b": ");
    push_told(&mut line, visit);
    push(&mut line, b"\n");
    line
}

/// Writes the line of the connection with this number.
fn write_line<O: Sink>(out: &mut O, number: u32, visit: &Visit) -> Result<(), OutFault>
    requires { O.failures out.old < 2 ^ 64 - 1 }
    ensures ok { OnOk result (Appends (O.written out.old) (O.written out.new) (connection_line number visit.now)) }
    ensures err { OnErr result ((n : ℕ) × (n < length (connection_line number visit.now))
        × Appends (O.written out.old) (O.written out.new) (take n (connection_line number visit.now))) }
    ensures count_ok { OnOk result (O.failures out.new ≡ O.failures out.old) }
    ensures count_err { OnErr result (O.failures out.new ≡ O.failures out.old + 1) }
{
    let line = connection_line(number, visit);
    match write_all(out, line.as_slice()) {
        Ok(()) => Ok(()),
        Err(_) => Err(OutFault),
    }
}

/// Serves the stream of the next connection; nothing where it could not be accepted.
fn serve_connection<S: Alter, D: Door>(alloc: Global, desk: &mut Desk<S>, door: &mut D) -> Visit
    ensures served { Connects (AnswersFrom S.Store) (D.peers door.old 0) desk.old result desk.new }
    ensures next { (n : ℕ) → IsPeer (D.peers door.new n) (D.peers door.old (n + 1)) }
{
    let Ok((mut reader, mut writer)) = door.accept() else {
        return None;
    };
    let came = serve_stream(alloc, desk, &mut reader, &mut writer);
    door.close(reader, writer);
    Some(came)
}

/// Returns how many in a row could not be accepted, after one more.
fn next_row(before: u32, visit: &Visit) -> u32
    requires { before < MAX_UNACCEPTED }
    ensures { result ≡ next_row before visit.now }
{
    match visit {
        Some(_) => 0,
        None => before + 1,
    }
}

/// Serves this many connections, one after another, each to the end of its stream or until it breaks off, and writes a line of
/// each. A connection that cannot be accepted counts as one with a fault of reading. Returns how many were served: fewer where
/// `MAX_UNACCEPTED` in a row could not be accepted.
///
/// `OutFault` comes only where the writer of the lines failed; the connections that came later are not served.
pub fn serve_on<S: Alter, D: Door, O: Sink>(
    alloc: Global,
    desk: &mut Desk<S>,
    door: &mut D,
    count: u32,
    out: &mut O,
) -> Result<u32, OutFault>
    requires { O.failures out.old < 2 ^ 64 - 1 }
    ensures served { IfOk result (λ number. AllServed (AnswersFrom S.Store) (D.peers door.old) desk.old count number (O.written out.old) (O.written out.new) desk.new) }
    ensures broken { OnErr result (SomeServed (AnswersFrom S.Store) (D.peers door.old) desk.old count (O.written out.old) (O.written out.new) desk.new) }
    ensures count_ok { OnOk result (O.failures out.new ≡ O.failures out.old) }
    ensures count_err { OnErr result (O.failures out.new ≡ O.failures out.old + 1) }
{
    let mut unaccepted = 0;
    for before in 0..count {
        if unaccepted == MAX_UNACCEPTED {
            return Ok(before);
        }
        let visit = serve_connection(alloc, desk, door);
        unaccepted = next_row(unaccepted, &visit);
        write_line(out, before + 1, &visit)?;
    }
    Ok(count)
}
