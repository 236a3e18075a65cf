//! Laws of a stream that the words of its contract keep: a function with nothing to do, whose contract is the laws.

ghost use Rattle.web.specs.Laws.{AnsweredStay, StreamLasts};

use sqlite::Alter;

/// Over the messages of a stream each change that was answered stays: what a crash leaves is opened as the office that the answered
/// messages left, or as one that one message of the stream makes of it. And where the tables are as they are made here, with rowids left,
/// no message is refused for the database's own reasons, however many there are.
pub fn stream_law<S: Alter>()
    ensures stay { AnsweredStay S.Store }
    ensures last { StreamLasts S.Store }
{}
