//! What answers messages.
ghost use Rattle.std.specs.Prelude.{◌≡◌, ℕ, List};
ghost use Rattle.http_stream.specs.Answers.{answer_bytes};
ghost use Rattle.http_stream.specs.Run.{MessageText};

use crate::MAX_SHORT_TEXT;
use crate::outcome::End;
use arrayvec::ArrayVec;

/// The bytes of a short answer.
pub type ShortText = ArrayVec<u8, MAX_SHORT_TEXT>;

// A fixed array, so that there is an answer for a request that ran out of memory too.
/// The bytes of an answer: in a fixed array, or in memory.
#[derive(Drop)]
pub enum Answer {
    Short(ShortText),
    Long(Vec<u8>),
}

impl Answer {
    /// Returns its bytes.
    pub fn as_slice(&self) -> &[u8]
        ensures { result.now ≡ answer_bytes self.now }
    {
        match self {
            Answer::Short(bytes) => bytes.as_slice(),
            Answer::Long(bytes) => bytes.as_slice(),
        }
    }
}

/// Answers messages at a desk, one after another.
pub trait Handler<D> {
    ghost use Rattle.http_stream.specs.declared.outcome.End.{End};

    // From the first desk, a message that says this may be answered by these bytes, and leave the second.
    ghost step: { D → MessageText → List ℕ → D → Type 0 };

    // What is written at an end that is refused.
    ghost refusal: { End → List ℕ };

    /// Answers one message.
    fn answer(&self, desk: &mut D, method: &[u8], target: &[u8], body: &[u8]) -> Answer
        ensures step { step desk.old (record { method = method.now; target = target.now; body = body.now })
            (answer_bytes result) desk.new };

    /// Returns what is written where a bad head, or a message above its limits, ends the stream.
    fn refuse(&self, end: End) -> Answer
        ensures { answer_bytes result ≡ refusal end };
}
