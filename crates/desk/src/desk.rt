//! The desk.

ghost use Rattle.std.specs.Prelude.{ℕ, ◌≡◌, ◌≢◌, ◌⊎◌, Err, IfOk, IfErr, IsOk, IsErr, IfSome, IsTrue, is_some, OnErr, None, option_map, false, true};
ghost use Rattle.sqlite.specs.State.{HasCleanDisk, Survives};
ghost use Rattle.sqlite.specs.Held.{state};
ghost use Rattle.sql_tables.specs.Steps.{MayRecoverTo};
ghost use Rattle.office_model.specs.Reads.{changes_nothing};
ghost use Rattle.office_model.specs.Refusing.{refusal_of};
ghost use Rattle.office_model.specs.Run.{Step, Run, refusal};
ghost use Rattle.desk.specs.layers.Layers.{layers};
ghost use Rattle.store.specs.Opening.{IsLeftUnopened};
ghost use Rattle.store.specs.Reading.{AreListed};
ghost use Rattle.store.specs.Tables.{HasNone};
ghost use Rattle.desk.specs.Keeping.{Begins, Keeps, StandsForOne, needs_no_table};
ghost use Rattle.desk.specs.DeskState.{IsInOrder, IsOpened};
ghost use Rattle.desk.specs.Saved.{IsSaved};
ghost use Rattle.desk.specs.Sessions.{AnswersAtOnce, GoesOn, RunsOn, MirrorsRound};

use crate::layers;
use crate::persistent::{PersistentOffice, refusal_of_fault};
use crate::sessions::{effect_after, effect_of, next_session};
use office::Office;
use office_model::{Plain, Refusal, Reply, Request};
use solver::Session;
use sqlite::{Alter, Connection};
use std::alloc::{AllocError, Global};
use std::marker::Model;
use store::Store;

/// An office in memory next to the tables that stand for it, and a session of its open round where a preview was asked for.
#[derive(Drop)]
pub struct Desk<S: Alter> {
    alloc: Global,
    persistent: PersistentOffice<S>,
    session: Option<Session>,
}

impl<S: Alter> Model for Desk<S> {
    ghost use Rattle.desk.specs.DeskState.{DeskState};
    ghost use Rattle.desk.specs.Inside.DeskState.{kept_code, IsKept};

    ghost Value = { DeskState S };

    ghost coded = { kept_code S.code };

    ghost view = { λ d. let persistent = d.persistent in record { office = persistent.office; store = persistent.store; session = d.session } };

    ghost invariant = { λ d. let persistent = d.persistent in IsKept S.Store (record { office = persistent.office; store = persistent.store; session = d.session }) };
}

/// Whether a request changes nothing of an office.
fn changes_nothing(office: &Office, request: &Request) -> bool
    ensures { result ≡ changes_nothing office.now request.now }
{
    match request {
        Request::Plain(plain) => plain.is_read(),
        Request::Close => false,
        Request::Preview | Request::RoundText | Request::Report { .. } => true,
        Request::Import { id, .. } => office.kept_rows(id.as_str()).is_some(),
    }
}

impl<S: Alter> Desk<S> {
    /// Opens the office that the tables of a database stand for. Where none of the tables is there they are made, and the
    /// office is the empty one; those of an earlier edition are migrated. With a refusal the connection is given back and its
    /// database is as before.
    pub fn open(
        alloc: Global,
        connection: Connection<S>,
    ) -> Result<Desk<S>, (Refusal, Connection<S>)>
        ensures opened { IfOk result (IsOpened S.Store connection) }
        ensures unopened { IfErr result (λ e. let refusal = e.0 in IsLeftUnopened S.Store (refusal ≡ Refusal.Storage) (refusal ≡ Refusal.Damaged) connection e.1) }
        ensures refused { IfErr result (λ e. (e.0 ≡ Refusal.Memory) ⊎ ((e.0 ≡ Refusal.Storage) ⊎ (e.0 ≡ Refusal.Damaged))) }

        // Where a transaction is open already it is not out of memory, and no damage.
        ensures begun { IsTrue connection.in_transaction → IsErr result × IfErr result (λ e. e.0 ≡ Refusal.Storage) }

        // Tables that are there and are not listed as they are made here are damaged.
        ensures unlisted { connection.in_transaction ≡ false → (HasNone (state S.Store connection).now.schema → ⊥) → (AreListed (state S.Store connection).now.schema → ⊥) → IsErr result × IfErr result (λ e. e.0 ≡ Refusal.Damaged) }
    {
        match Store::open(alloc, connection) {
            Ok((store, office)) => {
                let persistent = PersistentOffice {
                    alloc,
                    office,
                    store,
                };
                // Asked for its clauses alone: they are so of every desk.
                persistent.office();
                Ok(Desk {
                    alloc,
                    persistent,
                    session: None,
                })
            }
            Err((fault, connection)) => Err((refusal_of_fault(fault), connection)),
        }
    }

    /// Lends the office. Every desk is in order, and a session that is cached mirrors its open round.
    pub fn office(&self) -> &Office
        ensures same { result.now ≡ self.now.office }
        ensures in_order { IsInOrder S.Store self.now }
        ensures ended { self.now.store.in_transaction ≡ false }
        ensures mirrors { MirrorsRound self.now.office self.now.session }
    {
        self.persistent.office()
    }

    /// Gives the connection up. Allocates nothing.
    pub fn into_connection(self) -> Connection<S>
        ensures same { result ≡ self.store }
        ensures tables { Keeps (state S.Store self.store) self.office }
        ensures ended { self.store.in_transaction ≡ false }
    {
        let Desk {
            alloc: _,
            persistent,
            session,
        } = self;
        drop(session);
        let PersistentOffice {
            alloc: _,
            office,
            store,
        } = persistent;
        drop(office);
        store.into_connection()
    }

    /// Returns the relaxations of the cached session since it was started; none where no session is cached. Allocates nothing.
    pub fn session_steps(&self) -> Option<u64>
        ensures steps { result ≡ option_map (λ s. s.steps) self.now.session }
    {
        match &self.session {
            Some(session) => Some(session.steps()),
            None => None,
        }
    }

    /// Asks all the requests in order, each answered by a step. Running out of memory for the answers comes before the first request
    /// is asked.
    pub fn run(&mut self, requests: Vec<Request>) -> Result<Vec<Result<Reply, Refusal>>, AllocError>
        ensures run { IfOk result (λ answers. Run layers self.old.office requests.items answers.items self.new.office) }
        ensures tables { Keeps (state S.Store self.new.store) self.new.office }
        ensures err { OnErr result (self.new ≡ self.old) }

        // The session goes on over each request in order.
        ensures session { IfOk result (λ answers. RunsOn self.old.office self.old.session requests.items answers.items self.new.office self.new.session) }

        // What a crash leaves: what it could leave before, or, where the connection was open, the tables of an office that some
        // beginning of the run makes.
        ensures crash { IfOk result (λ answers. Survives (state S.Store self.old.store) (state S.Store self.new.store) (MayRecoverTo (λ _. StandsForOne (Begins self.old.office requests.items answers.items)) (state S.Store self.old.store))) }
        ensures stays_shut { HasCleanDisk (state S.Store self.new.store) → IsTrue (state S.Store self.new.store).is_open → IsTrue (state S.Store self.old.store).is_open }
    {
        let mut answers = Vec::with_capacity(self.alloc, requests.len())?;
        for request in requests {
            let answer = self.ask(request);
            answers.push(answer)?;
        }
        Ok(answers)
    }

    /// Makes one step of the office. An `Err` is the first refusal that applies, and leaves the office and its tables as they were.
    /// `Memory` may take the place of any answer that allocates, and `Storage`, a database error, that of a change alone.
    pub fn ask(&mut self, request: Request) -> Result<Reply, Refusal>
        ensures step { Step layers self.old.office request result self.new.office }
        ensures in_order { IsInOrder S.Store self.new }
        ensures quiet { needs_no_table self.old.office request ≡ true → self.new.store ≡ self.old.store }

        // What a crash leaves, that an answered change has its tables alone over an open connection, and why the storage has failed.
        ensures saved { IsSaved self.old.office request result (state S.Store self.old.store) (state S.Store self.new.store) }

        // A stored import that comes once more answers its number, a preview that is read from a session answers, and so does a read of a
        // round: no table is touched for these, and they allocate nothing.
        ensures at_once { AnswersAtOnce self.old.office self.old.session request result }

        // A refusal leaves the session, and so do reads, puts of students and repeated imports. An answered preview leaves one, a
        // first list joins the one that is cached or drops it, and every other change leaves none.
        ensures session { GoesOn self.old.office request result self.old.session self.new.session }
    {
        if let Some(refusal) = self.office().refusal_of(&request) {
            return Err(refusal);
        }
        if changes_nothing(self.office(), &request) {
            self.read(request)
        } else {
            self.change(request)
        }
    }

    /// Answers a request that changes nothing, from the office or from the session.
    fn read(&mut self, request: Request) -> Result<Reply, Refusal>
        requires nothing { changes_nothing self.old.office request ≡ true }
        requires allowed { refusal_of self.old.office request ≡ None }
        ensures step { Step layers self.old.office request result self.new.office }
        ensures store { self.new.store ≡ self.old.store }
        ensures in_order { IsInOrder S.Store self.new }
        ensures storage { result ≢ Err Refusal.Storage }
        ensures at_once { AnswersAtOnce self.old.office self.old.session request result }
        ensures session { GoesOn self.old.office request result self.old.session self.new.session }
    {
        let office = self.office();
        match request {
            Request::Plain(plain) => self.persistent.read(plain),
            Request::Close => unreachable!(),
            Request::Preview => self.preview(),
            Request::RoundText => Ok(layers::round_text(self.alloc, office)?),
            Request::Report { kind, round } => layers::report(self.alloc, office, kind, round),
            Request::Import { id, .. } => match office.kept_rows(id.as_str()) {
                Some(rows) => Ok(Reply::Rows(rows)),
                None => unreachable!(),
            },
        }
    }

    /// Reads a preview from the session. Where none is cached one is started.
    fn preview(&mut self) -> Result<Reply, Refusal>
        requires allowed { refusal_of self.old.office Request.Preview ≡ None }
        ensures step { Step layers self.old.office Request.Preview result self.new.office }
        ensures store { self.new.store ≡ self.old.store }
        ensures in_order { IsInOrder S.Store self.new }
        ensures storage { result ≢ Err Refusal.Storage }
        ensures session { GoesOn self.old.office Request.Preview result self.old.session self.new.session }
        ensures kept { IsTrue (is_some self.old.session) → IsOk result }
    {
        let office = self.office();
        if let Some(session) = &self.session {
            return Ok(layers::read_preview(session));
        }
        let session = layers::start_session(self.alloc, office)?;
        let reply = layers::read_preview(&session);
        self.session = Some(session);
        Ok(reply)
    }

    /// Saves a change, and the session follows it.
    fn change(&mut self, request: Request) -> Result<Reply, Refusal>
        requires change { changes_nothing self.old.office request ≡ false }
        requires allowed { refusal_of self.old.office request ≡ None }
        ensures step { Step layers self.old.office request result self.new.office }
        ensures in_order { IsInOrder S.Store self.new }
        ensures quiet { IfSome (refusal layers self.old.office request) (λ _. self.new.store ≡ self.old.store) }
        ensures saved { IsSaved self.old.office request result (state S.Store self.old.store) (state S.Store self.new.store) }
        ensures session { GoesOn self.old.office request result self.old.session self.new.session }
    {
        let effect = effect_of(self.alloc, self.office(), &request)?;
        let answer = self.persistent.change(request);
        let effect = effect_after(effect, &answer);
        let kept = self.session.take();
        self.session = next_session(self.alloc, self.persistent.office(), kept, effect);
        answer
    }
}
