//! The service of a stream.
ghost use Rattle.std.specs.Prelude.{◌≡◌, ◌≢◌, false, ℕ, ◌+◌, ◌-◌, ◌^◌, ◌<◌, List, Option, [], ◌++◌, length, take, drop, IfOk, OnOk, OnErr, IfErr, IfSome, IfNone};
ghost use Rattle.std.specs.Io.KnownBytes.{Appends};
ghost use Rattle.httparse.specs.Spans.{IsWithin};
ghost use Rattle.http_stream.specs.Messages.{Message, Stops};
ghost use Rattle.http_stream.specs.Inside.Judged.{IsPartsOf, Judges};
ghost use Rattle.http_stream.specs.Inside.Run.{said_at};
ghost use Rattle.http_stream.specs.Run.{last_words, last_count, unread, read_failed, write_failed};
ghost use Rattle.http_stream.specs.Answers.{answer_bytes};
ghost use Rattle.http_stream.specs.Inside.Served.{SoFar, GoesOnServing, BreaksOff};
ghost use Rattle.http_stream.specs.Served.{IsServed};

use crate::MAX_MESSAGES;
use crate::ending::finish;
use crate::endpoints::{Sink, Source};
use crate::front::{Judgement, Parts};
use crate::handling::{Answer, Handler};
use crate::outcome::{End, Served, StreamFault};
use crate::window::{Next, Window};
use crate::writing::write_all;
use std::alloc::Global;

/// Answers the message at the front, and takes it away.
fn serve_one<D, H: Handler<D>, W: Sink>(
    handler: &H,
    desk: &mut D,
    writer: &mut W,
    window: &mut Window,
    parts: Parts,
) -> Result<(), StreamFault>
    requires failures { W.failures writer.old < 2 ^ 64 - 1 }
    requires parts { Judges window.old (Judgement.Whole parts) }
    ensures ok { OnOk result ((a : List ℕ) × H.step desk.old (said_at window.old parts) a desk.new
        × Appends (W.written writer.old) (W.written writer.new) a) }
    ensures err { OnErr result ((a : List ℕ) × H.step desk.old (said_at window.old parts) a desk.new
        × (n : ℕ) × (n < length a) × Appends (W.written writer.old) (W.written writer.new) (take n a)) }
    ensures taken { OnOk result (window.new ≡ drop (parts.head + parts.body) window.old) }
    ensures fault { IfErr result (λ e. e ≡ StreamFault.Write) }
    ensures count { W.failures writer.new ≡ W.failures writer.old + write_failed result }
{
    let bytes = window.bytes();
    let answer = handler.answer(
        desk,
        parts.method.of(bytes),
        parts.target.of(bytes),
        &bytes[parts.head..parts.head + parts.body],
    );
    write_all(writer, answer.as_slice())?;
    // After a failed write the message stays at the front, and the stream is over anyway.
    window.drop_front(parts.head + parts.body);
    Ok(())
}

/// Runs one iteration: reads on, and answers a message, or says why there is none.
fn serve_next<D, H: Handler<D>, R: Source, W: Sink>(
    handler: &H,
    desk: &mut D,
    reader: &mut R,
    writer: &mut W,
    window: &mut Window,
) -> Result<Option<End>, StreamFault>
    requires read_failures { R.failures reader.old < 2 ^ 64 - 1 }
    requires open { R.ended reader.old ≡ false }
    requires write_failures { W.failures writer.old < 2 ^ 64 - 1 }
    ensures answers { IfOk result (λ o. IfNone o ((R.ended reader.new ≡ false) × GoesOnServing H.step
        (R.left reader.old) (W.written writer.old) window.old desk.old
        (R.left reader.new) (W.written writer.new) window.new desk.new 1)) }
    ensures ends { IfOk result (λ o. IfSome o (λ end.
        Stops (window.new ++ unread (R.left reader.new)) end
        × GoesOnServing H.step
        (R.left reader.old) (W.written writer.old) window.old desk.old
        (R.left reader.new) (W.written writer.new) window.new desk.new 0)) }
    ensures breaks { IfErr result (λ fault. (fault ≢ StreamFault.Memory) × BreaksOff H.step H.refusal
        (R.left reader.old) (W.written writer.old) window.old desk.old
        (R.left reader.new) (W.written writer.new) desk.new fault) }
    ensures read_count { R.failures reader.new ≡ R.failures reader.old + read_failed result }
    ensures write_count { W.failures writer.new ≡ W.failures writer.old + write_failed result }
{
    match window.read_next(reader) {
        Err(fault) => Err(fault),
        Ok(found) => match found {
            Next::Ends(end) => Ok(Some(end)),
            Next::Message(parts) => match serve_one(handler, desk, writer, window, parts) {
                Err(fault) => Err(fault),
                Ok(()) => Ok(None),
            },
        },
    }
}

/// Serves the messages of a stream, as many as it may have. Fails where the reader or the writer fails, or where memory runs out before
/// anything is read.
pub fn serve_messages<D, H: Handler<D>, R: Source, W: Sink>(
    alloc: Global,
    handler: &H,
    desk: &mut D,
    reader: &mut R,
    writer: &mut W,
) -> Result<Served, StreamFault>
    requires read_failures { R.failures reader.old < 2 ^ 64 - 1 }
    requires open { R.ended reader.old ≡ false }
    requires write_failures { W.failures writer.old < 2 ^ 64 - 1 }
    ensures served { IsServed H.step H.refusal desk.old (R.left reader.old) (W.written writer.old) result
        desk.new (R.left reader.new) (W.written writer.new) }

    // `Read` and `Write` come exactly where the reader's or the writer's count of failures grows.
    ensures read_count { R.failures reader.new ≡ R.failures reader.old + read_failed result }
    ensures write_count { W.failures writer.new ≡ W.failures writer.old + write_failed result }
{
    // All that the stream itself needs is allocated before its first byte is read: later only an answer can run out of memory.
    let Ok(mut window) = Window::new(alloc) else {
        return Err(StreamFault::Memory);
    };
    for answered in 0..MAX_MESSAGES {
        match serve_next(handler, desk, reader, writer, &mut window) {
            Err(fault) => return Err(fault),
            Ok(found) => {
                if let Some(end) = found {
                    return finish(handler, writer, end, answered);
                }
            }
        }
    }
    Ok(Served {
        answered: MAX_MESSAGES,
        end: End::Hundred,
    })
}
