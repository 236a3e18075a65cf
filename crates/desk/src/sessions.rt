//! What becomes of the session that a desk keeps.

ghost use Rattle.std.specs.Prelude.{◌≡◌, IfOk, IfSome};
ghost use Rattle.desk.specs.layers.SessionRounds.{MayJoin};
ghost use Rattle.desk.specs.Sessions.{list_effect, plain_effect, effect_of, Goes, IsJoined, MirrorsRound};
ghost use Rattle.desk.specs.Inside.Sessions.{MayMeet, effect_after};

use crate::layers;
use office::Office;
use office_model::{Plain, Refusal, Reply, Request, Text};
use solver::Session;
use std::alloc::{AllocError, Global};

/// What a request, once carried out, makes of the session.
#[derive(Drop)]
pub enum SessionEffect {
    /// It stays as it is.
    Keep,
    /// It stays, and where none is cached one is started.
    Start,
    /// This student is admitted.
    Extend(Text),
    /// It is dropped.
    End,
}

/// Returns what a put of a list makes of the session: a first list joins it, and one over another ends it.
fn list_effect(alloc: Global, office: &Office, student: &str) -> Result<SessionEffect, AllocError>
    ensures { IfOk result (λ effect. effect ≡ list_effect office.now student.now) }
{
    if office.list_of(office.last_round(), student).is_some() {
        return Ok(SessionEffect::End);
    }
    Ok(SessionEffect::Extend(Text::of(alloc, student)?))
}

/// Returns what a plain request makes of the session.
fn plain_effect(alloc: Global, office: &Office, plain: &Plain) -> Result<SessionEffect, AllocError>
    ensures { IfOk result (λ effect. effect ≡ plain_effect office.now plain.now) }
{
    match plain {
        Plain::PutList { student, .. } => list_effect(alloc, office, student.as_str()),
        Plain::PutStudent { .. } => Ok(SessionEffect::Keep),
        Plain::GetSupervisor { .. } | Plain::GetProject { .. } => Ok(SessionEffect::Keep),
        Plain::GetStudent { .. } | Plain::GetRound { .. } => Ok(SessionEffect::Keep),
        Plain::PutSupervisor { .. } | Plain::PutProject { .. } => Ok(SessionEffect::End),
        Plain::OpenRound { .. } | Plain::DropList { .. } | Plain::ReopenRound => Ok(
            SessionEffect::End,
        ),
    }
}

/// Returns what a request makes of the session. An `Err` is out of memory.
pub fn effect_of(
    alloc: Global,
    office: &Office,
    request: &Request,
) -> Result<SessionEffect, AllocError>
    ensures { IfOk result (λ effect. effect ≡ effect_of office.now request.now) }
{
    match request {
        Request::Plain(plain) => plain_effect(alloc, office, plain),
        Request::Close => Ok(SessionEffect::End),
        Request::Preview => Ok(SessionEffect::Start),
        Request::RoundText | Request::Report { .. } => Ok(SessionEffect::Keep),
        Request::Import { id, .. } => match office.kept_rows(id.as_str()) {
            Some(_) => Ok(SessionEffect::Keep),
            None => Ok(SessionEffect::End),
        },
    }
}

/// Returns what a request that got this answer makes of the session: a refused one leaves it.
pub fn effect_after(effect: SessionEffect, answer: &Result<Reply, Refusal>) -> SessionEffect
    ensures { result ≡ effect_after answer.now effect }
{
    match answer {
        Ok(_) => effect,
        Err(_) => SessionEffect::Keep,
    }
}

/// Returns the session with one student more; none where an allocation failed.
fn joined(alloc: Global, office: &Office, kept: Option<Session>, student: &str) -> Option<Session>
    requires joins { IfSome kept (λ s. MayJoin office.now s student.now) }
    ensures joined { IsJoined kept result }
    ensures mirrors { MirrorsRound office.now result }
{
    let Some(mut session) = kept else {
        return None;
    };
    match layers::join(alloc, office, &mut session, student) {
        Ok(()) => Some(session),
        Err(_) => None,
    }
}

/// Returns the session after a change. Running out of memory drops it.
pub fn next_session(
    alloc: Global,
    office: &Office,
    kept: Option<Session>,
    effect: SessionEffect,
) -> Option<Session>
    requires meets { MayMeet effect office.now kept }
    ensures goes { Goes effect kept result }
    ensures mirrors { MirrorsRound office.now result }
{
    match effect {
        SessionEffect::Keep | SessionEffect::Start => kept,
        SessionEffect::Extend(student) => joined(alloc, office, kept, student.as_str()),
        SessionEffect::End => None,
    }
}
