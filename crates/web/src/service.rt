//! The service of a stream at a desk.
ghost use Rattle.std.specs.Prelude.{◌≡◌, ◌-◌, ◌^◌, ◌+◌, ◌<◌, false};
ghost use Rattle.http_stream.specs.Run.{read_failed, write_failed};
ghost use Rattle.http_stream.specs.Served.{IsServed};
ghost use Rattle.web.specs.Serving.{AnswersFrom, AnswersMessage, AnswersOffice, at_desk, refusal_at, end_text};

use desk::Desk;
use http_api::{Routes, answer_of, refusal_answer};
use http_stream::{Answer, End, Handler, Served, Sink, Source, StreamFault, serve_messages};
use office_model::Refusal;
use sqlite::Alter;
use std::alloc::Global;

/// Answers the messages of a stream at a desk.
#[derive(Drop)]
struct OfficeHandler {
    alloc: Global,
    routes: Routes,
}

/// Returns the refusal of an end that is answered.
fn refusal_at(end: End) -> Refusal
    ensures { result ≡ refusal_at end }
{
    match end {
        End::TooLarge => Refusal::TooLarge,
        End::BadHead | End::Closed | End::Unfinished | End::Hundred => Refusal::BadHead,
    }
}

impl<S: Alter> Handler<Desk<S>> for OfficeHandler {
    ghost step = { AnswersFrom S.Store };

    ghost refusal = { end_text };

    fn answer(&self, desk: &mut Desk<S>, method: &[u8], target: &[u8], body: &[u8]) -> Answer {
        match self.routes.request(method, target, body) {
            Err(refusal) => Answer::Short(refusal_answer(refusal)),
            Ok(request) => {
                let answer = desk.ask(request);
                answer_of(self.alloc, answer)
            }
        }
    }

    fn refuse(&self, end: End) -> Answer {
        Answer::Short(refusal_answer(refusal_at(end)))
    }
}

/// Answers the messages that come from a reader, each as soon as its bytes have come, up to a hundred. Fails where the reader or the
/// writer fails, or where memory runs out before anything is read.
pub fn serve_stream<S: Alter, R: Source, W: Sink>(
    alloc: Global,
    desk: &mut Desk<S>,
    reader: &mut R,
    writer: &mut W,
) -> Result<Served, StreamFault>
    requires read_failures { R.failures reader.old < 2 ^ 64 - 1 }
    requires open { R.ended reader.old ≡ false }
    requires write_failures { W.failures writer.old < 2 ^ 64 - 1 }

    // What was written: the texts of the answers of a run of the office over the messages of the stream, and the refusal that ends it. What
    // was read and what the reader has left are the stream. After a fault a beginning of that: all answers but the last whole. A reader
    // fails before the hundredth answer alone, so nothing is read after it.
    ensures served { IsServed AnswersOffice end_text desk.old.office (R.left reader.old) (W.written writer.old) result
        desk.new.office (R.left reader.new) (W.written writer.new) }

    // The same with the session, which says what allocates nothing, and over the tables: as they are made here they refuse no request.
    ensures session { IsServed AnswersMessage end_text (at_desk desk.old) (R.left reader.old) (W.written writer.old) result
        (at_desk desk.new) (R.left reader.new) (W.written writer.new) }
    ensures available { IsServed (AnswersFrom S.Store) end_text desk.old (R.left reader.old) (W.written writer.old) result
        desk.new (R.left reader.new) (W.written writer.new) }

    // `Read` and `Write` come exactly where the reader's or the writer's count of failures grows.
    ensures read_count { R.failures reader.new ≡ R.failures reader.old + read_failed result }
    ensures write_count { W.failures writer.new ≡ W.failures writer.old + write_failed result }
{
    let Ok(routes) = Routes::new(alloc) else {
        return Err(StreamFault::Memory);
    };
    let clerk = OfficeHandler { alloc, routes };
    serve_messages(alloc, &clerk, desk, reader, writer)
}
