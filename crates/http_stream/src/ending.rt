//! What is written at a stream's end.
ghost use Rattle.std.specs.Prelude.{◌≡◌, ℕ, ◌+◌, ◌-◌, ◌^◌, ◌<◌, length, take, IfOk, OnOk, OnErr, IfErr};
ghost use Rattle.std.specs.Io.KnownBytes.{Appends};
ghost use Rattle.http_stream.specs.Answers.{answer_bytes};
ghost use Rattle.http_stream.specs.Run.{last_words, last_count};

use crate::MAX_MESSAGES;
use crate::endpoints::Sink;
use crate::handling::{Answer, Handler};
use crate::outcome::{End, Served, StreamFault};
use crate::writing::write_all;
use arrayvec::ArrayVec;

/// Returns the refusal that ends a stream, or nothing.
fn last_answer<D, H: Handler<D>>(handler: &H, end: End) -> Answer
    ensures { answer_bytes result ≡ last_words H.refusal end }
{
    match end {
        End::BadHead | End::TooLarge => handler.refuse(end),
        End::Closed | End::Unfinished | End::Hundred => Answer::Short(ArrayVec::new()),
    }
}

/// Returns how many answers that is.
fn last_count(end: End) -> u32
    ensures { result ≡ last_count end }
{
    match end {
        End::BadHead | End::TooLarge => 1,
        End::Closed | End::Unfinished | End::Hundred => 0,
    }
}

/// Writes the refusal that ends a stream, if one does.
pub fn finish<D, H: Handler<D>, W: Sink>(
    handler: &H,
    writer: &mut W,
    end: End,
    answered: u32,
) -> Result<Served, StreamFault>
    requires failures { W.failures writer.old < 2 ^ 64 - 1 }
    requires few { answered < MAX_MESSAGES }
    ensures ok { IfOk result (λ s. s ≡ record { answered = answered + last_count end; end = end }) }
    ensures wrote { OnOk result (Appends (W.written writer.old) (W.written writer.new) (last_words H.refusal end)) }
    ensures err { OnErr result ((n : ℕ) × (n < length (last_words H.refusal end))
        × Appends (W.written writer.old) (W.written writer.new) (take n (last_words H.refusal end))) }
    ensures fault { IfErr result (λ e. e ≡ StreamFault.Write) }
    ensures count_ok { OnOk result (W.failures writer.new ≡ W.failures writer.old) }
    ensures count_err { OnErr result (W.failures writer.new ≡ W.failures writer.old + 1) }
{
    let answer = last_answer(handler, end);
    write_all(writer, answer.as_slice())?;
    Ok(Served {
        answered: answered + last_count(end),
        end,
    })
}
