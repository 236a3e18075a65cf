//! An office in memory next to the tables that stand for it.

ghost use Rattle.std.specs.Prelude.{ℕ, ◌≡◌, ◌≢◌, ◌⊎◌, Err, IfErr, IfOk, IfSome, IsOk, None, false, true};
ghost use Rattle.sqlite.specs.Held.{state};
ghost use Rattle.sqlite.specs.State.{IsLive};
ghost use Rattle.office_model.specs.Fit.{IsFit};
ghost use Rattle.office_model.specs.Reads.{is_read, changes_nothing};
ghost use Rattle.office_model.specs.Refusing.{plain_refusal, refusal_of};
ghost use Rattle.office_model.specs.Rows.{Transforms};
ghost use Rattle.office_model.specs.Run.{Makes, MayRefuse, Step, refusal};
ghost use Rattle.desk.specs.layers.Changes.{MayChange};
ghost use Rattle.desk.specs.layers.Layers.{layers};
ghost use Rattle.desk.specs.Keeping.{Keeps};
ghost use Rattle.store.specs.Saving.{AreActedOn};
ghost use Rattle.desk.specs.Saved.{IsSaved};
ghost use Rattle.desk.specs.Inside.Saved.{HasSettled};

use crate::layers;
use office::Office;
use office_model::{Done, Plain, Refusal, Reply, Request};
use sqlite::Alter;
use std::alloc::Global;
use std::marker::Model;
use std::mem;
use store::{Store, StoreFault};

/// An office in memory next to the tables that stand for it.
#[derive(Drop)]
pub(crate) struct PersistentOffice<S: Alter> {
    pub(crate) alloc: Global,
    pub(crate) office: Office,
    pub(crate) store: Store<S>,
}

impl<S: Alter> Model for PersistentOffice<S> {
    ghost use Rattle.desk.specs.PersistentOffice.{PersistentState};
    ghost use Rattle.desk.specs.Inside.PersistentOffice.{persistent_code};
    ghost use Rattle.desk.specs.Inside.Keeping.{AreKept};

    ghost Value = { PersistentState S };

    ghost coded = { persistent_code S.code };

    ghost view = { λ b. record { office = b.office; store = b.store } };

    ghost invariant = { λ b. AreKept S.Store (record { office = b.office; store = b.store }) };
}

/// Returns the refusal by which a fault of the store is answered.
pub(crate) fn refusal_of_fault(fault: StoreFault) -> Refusal
    ensures memory { fault ≡ StoreFault.Memory → result ≡ Refusal.Memory }
    ensures storage { fault ≡ StoreFault.Storage → result ≡ Refusal.Storage }
    ensures damaged { fault ≡ StoreFault.Damaged → result ≡ Refusal.Damaged }
{
    match fault {
        StoreFault::Memory => Refusal::Memory,
        StoreFault::Storage => Refusal::Storage,
        StoreFault::Damaged => Refusal::Damaged,
    }
}

/// Makes on the office what a request that changes it asks.
fn make_change(alloc: Global, office: &mut Office, request: Request) -> Result<Done, Refusal>
    requires change { changes_nothing office.old request ≡ false }
    requires allowed { refusal_of office.old request ≡ None }
    ensures made { IfOk result (λ done. (refusal layers office.old request ≡ None) × Makes layers office.old request done.reply office.new) }
    ensures transforms { IfOk result (λ done. let changes = done.changes in Transforms changes.items office.old office.new) }
    ensures changes { IfOk result (λ done. let changes = done.changes in MayChange office.old request changes.items) }
    ensures refused { IfErr result (MayRefuse layers office.old request) }
    ensures unstored { result ≢ Err Refusal.Storage }
{
    match request {
        Request::Plain(plain) => Ok(office.make(plain)?),
        Request::Close => Ok(layers::close(alloc, office)?),
        Request::Import { id, kind, bytes } => layers::import(alloc, office, id, kind, bytes),
        Request::Preview | Request::RoundText | Request::Report { .. } => unreachable!(),
    }
}

impl<S: Alter> PersistentOffice<S> {
    /// Lends the office. It is fit, and the tables stand for it.
    pub(crate) fn office(&self) -> &Office
        ensures same { result.now ≡ self.now.office }
        ensures tables { Keeps (state S.Store self.now.store) self.now.office }
        ensures ended { self.now.store.in_transaction ≡ false }
        ensures fit { IsFit self.now.office }
        ensures live { IsLive (state S.Store self.now.store) }
    {
        // Both are asked for their clauses alone.
        self.office.fit();
        self.store.shows();
        &self.office
    }

    /// Answers from the office a plain request that only reads.
    pub(crate) fn read(&mut self, plain: Plain) -> Result<Reply, Refusal>
        requires read { is_read plain ≡ true }
        requires allowed { plain_refusal self.old.office plain ≡ None }
        ensures round { (number : ℕ) → plain ≡ Plain.GetRound number → IsOk result }
        ensures step { Step layers self.old.office (Request.Plain plain) result self.new.office }
        ensures same { self.new ≡ self.old }
        ensures storage { result ≢ Err Refusal.Storage }
    {
        Ok(self.office.make(plain)?.reply)
    }

    /// Makes a change on a copy, which becomes the office once its changes are saved.
    pub(crate) fn change(&mut self, request: Request) -> Result<Reply, Refusal>
        requires change { changes_nothing self.old.office request ≡ false }
        requires allowed { refusal_of self.old.office request ≡ None }
        ensures step { Step layers self.old.office request result self.new.office }
        ensures tables { Keeps (state S.Store self.new.store) self.new.office }
        ensures quiet { IfSome (refusal layers self.old.office request) (λ _. self.new.store ≡ self.old.store) }
        ensures saved { IsSaved self.old.office request result (state S.Store self.old.store) (state S.Store self.new.store) }
    {
        let mut next = self.office().copy()?;
        let done = make_change(self.alloc, &mut next, request)?;
        self.exchange(&mut next, done)
    }

    /// Saves the changes, and then exchanges the office and the next one.
    fn exchange(&mut self, next: &mut Office, done: Done) -> Result<Reply, Refusal>
        requires transforms { let changes = done.changes in Transforms changes.items self.old.office next.old }
        ensures ok { IfOk result (λ reply. (reply ≡ done.reply) × (self.new.office ≡ next.old)) }
        ensures err { IfErr result (λ refusal. ((refusal ≡ Refusal.Memory) ⊎ (refusal ≡ Refusal.Storage)) × (self.new.office ≡ self.old.office)) }
        ensures tables { Keeps (state S.Store self.new.store) self.new.office }
        ensures saved { let changes = done.changes in HasSettled changes.items result (state S.Store self.old.store) (state S.Store self.new.store) }
        ensures acted_on { AreActedOn (state S.Store self.old.store).now.schema → result ≡ Err Refusal.Storage }
    {
        match self.store.save(&done.changes) {
            Ok(()) => {
                mem::swap(&mut self.office, next);
                Ok(done.reply)
            }
            Err(fault) => Err(refusal_of_fault(fault)),
        }
    }
}
