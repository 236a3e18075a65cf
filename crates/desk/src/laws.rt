//! Laws that the words of the contracts keep: functions with nothing to do, whose contracts are the laws.

ghost use Rattle.desk.specs.Lasting.{AskLasts, OfficeLasts};
ghost use Rattle.desk.specs.Laws.{AnswersStay, AskIsWhole, AskReaches, IsFoundWhole, RestIsKept, RunIsWhole};

use sqlite::Alter;

/// What a crash leaves is opened as a whole office. Where a desk was just opened, or has just answered a change, a crash before
/// the next request leaves its office. A crash after such a desk was asked one request, or a list of them, leaves the office
/// before, or one that the request makes of it, or some first requests of the list and one more: never a part of a change. After
/// a change that was refused, since the database failed, it may leave the office with that change; so the law goes on over any
/// number of refused requests. Over requests that were asked one after another every change that was answered stays: the office is
/// opened that they left, or one that a request makes of it which was asked since the last answered change. And what is found is
/// not damaged.
pub fn crash_law<S: Alter>()
    ensures rest { RestIsKept S.Store }
    ensures ask { AskIsWhole S.Store }
    ensures run { RunIsWhole S.Store }
    ensures reaches { AskReaches S.Store }
    ensures answered { AnswersStay S.Store }
    ensures whole { IsFoundWhole S.Store }
{}

/// A desk that is ready for some requests, since its tables are as they are made here and have rowids left, refuses none of them for
/// the database's own reasons: each leaves it ready for the others. So an office that was made here refuses none of fewer than 2^40
/// requests for such reasons, however often its database is opened again meanwhile.
pub fn lasting_law<S: Alter>()
    ensures ask { AskLasts S.Store }
    ensures office { OfficeLasts S.Store }
{}
