//! The store.

ghost use Rattle.std.specs.Prelude.{◌≡◌, ◌≢◌, IsTrue, false, Err, IfOk, IfErr, IsErr, OnOk, OnErr};
ghost use Rattle.store.specs.Common.{HasCleanDisk, IsLive, IsReading, Survives, state, IsKept, MayRecoverTo, IsCaused};
ghost use Rattle.store.specs.Causes.{IsHinderedAmong, IsHinderedReading};
ghost use Rattle.store.specs.Editions.{IsEarlier, latest, rolls_of};
ghost use Rattle.store.specs.Inside.Reading.{IsEditionOf};
ghost use Rattle.store.specs.Tables.{HasNone, StandsFor};
ghost use Rattle.store.specs.Opening.{IsOpening, IsLeftUnopened};
ghost use Rattle.store.specs.Reading.{AreAllListed, AreListed, IsUnfitIn};
ghost use Rattle.store.specs.Saving.{AreActedOn, IsSafe, IsSaving, Saves};

use crate::all_tables::MIGRATED;
use crate::edition::{Edition, LATEST, edition_of, has_none};
use crate::fault::StoreFault;
use crate::quiet::{are_left, are_left_among};
use crate::reading::office_in;
use crate::transaction::{Task, transact};
use office::Office;
use office_model::Change;
use sqlite::{Alter, Connection};
use std::alloc::Global;
use std::marker::Model;

/// The office's tables, over a database.
pub struct Store<S: Alter> {
    conn: Connection<S>,
    alloc: Global,
}

impl<S: Alter + Drop> Drop for Store<S> {
    fn drop(self) {
        let Store { conn: _, alloc: _ } = self;
    }
}

impl<S: Alter> Model for Store<S> {
    ghost use Rattle.sqlite.specs.Held.{Held, held_code};

    ghost Value = { Held S };

    ghost coded = { held_code S.code };

    ghost view = { λ s. s.conn };
}

/// Makes the tables, and returns the empty office.
fn open_new<S: Alter>(alloc: Global, conn: &mut Connection<S>) -> Result<Office, StoreFault>
    requires idle { conn.old.in_transaction ≡ false }
    requires none { HasNone (state S.Store conn.old).now.schema }
    ensures opened { IfOk result (IsOpening S.Store conn.old conn.new) }
    ensures unopened { IfErr result (λ fault.
        IsLeftUnopened S.Store (fault ≡ StoreFault.Storage) (fault ≡ StoreFault.Damaged) conn.old conn.new) }
{
    transact(conn, Task::Create, &[])?;
    Ok(Office::new(alloc))
}

/// Returns the office of tables of the latest edition.
fn open_latest<S: Alter>(alloc: Global, conn: &mut Connection<S>) -> Result<Office, StoreFault>
    requires idle { conn.old.in_transaction ≡ false }
    requires whole { IsTrue (state S.Store conn.old).is_open → (state S.Store conn.old).now ≡ (state S.Store conn.old).committed }
    requires edition { IsEditionOf latest (state S.Store conn.old).now.schema }
    ensures opened { IfOk result (IsOpening S.Store conn.old conn.new) }
    ensures unopened { IfErr result (λ fault.
        IsLeftUnopened S.Store (fault ≡ StoreFault.Storage) (fault ≡ StoreFault.Damaged) conn.old conn.new) }
    ensures unlisted { (AreListed (state S.Store conn.old).now.schema → ⊥) → result ≡ Err StoreFault.Damaged }
{
    // There are no changes: nothing of the latest edition is migrated.
    let (read, _) = office_in(alloc, conn, LATEST)?;
    Ok(read)
}

/// Returns the office of tables of an earlier edition, which are migrated.
fn open_earlier<S: Alter>(
    alloc: Global,
    conn: &mut Connection<S>,
    edition: Edition,
) -> Result<Office, StoreFault>
    requires idle { conn.old.in_transaction ≡ false }
    requires whole { IsTrue (state S.Store conn.old).is_open → (state S.Store conn.old).now ≡ (state S.Store conn.old).committed }
    requires edition { IsEditionOf edition (state S.Store conn.old).now.schema }
    requires earlier { IsEarlier edition }
    ensures opened { IfOk result (IsOpening S.Store conn.old conn.new) }
    ensures unopened { IfErr result (λ fault.
        IsLeftUnopened S.Store (fault ≡ StoreFault.Storage) (fault ≡ StoreFault.Damaged) conn.old conn.new) }
    ensures unlisted { (AreListed (state S.Store conn.old).now.schema → ⊥) → result ≡ Err StoreFault.Damaged }
{
    let (migrated, changes) = office_in(alloc, conn, edition)?;
    // New tables are not asked about: rows are only added to them, and an INSERT makes no foreign key act.
    if !are_left_among(conn.schema(), &MIGRATED) {
        return Err(StoreFault::Storage);
    }
    transact(conn, Task::Migrate(edition), &changes)?;
    Ok(migrated)
}

/// Returns the office of the tables, which are made where none of them is there.
fn open_tables<S: Alter>(alloc: Global, conn: &mut Connection<S>) -> Result<Office, StoreFault>
    ensures opened { IfOk result (IsOpening S.Store conn.old conn.new) }
    ensures unopened { IfErr result (λ fault.
        IsLeftUnopened S.Store (fault ≡ StoreFault.Storage) (fault ≡ StoreFault.Damaged) conn.old conn.new) }
    ensures begun { IsTrue conn.old.in_transaction → result ≡ Err StoreFault.Storage }
    ensures unlisted { conn.old.in_transaction ≡ false → (HasNone (state S.Store conn.old).now.schema → ⊥)
        → (AreListed (state S.Store conn.old).now.schema → ⊥) → result ≡ Err StoreFault.Damaged }
{
    // A fault, and no condition on the caller, who may not know what a connection has begun.
    if !conn.is_autocommit() {
        return Err(StoreFault::Storage);
    }
    // Asked first: tables that are not there would be those of the first edition, and so be damaged.
    if has_none(conn.schema()) {
        return open_new(alloc, conn);
    }
    let edition = edition_of(conn.schema());
    if edition == LATEST {
        return open_latest(alloc, conn);
    }
    open_earlier(alloc, conn, edition)
}

impl<S: Alter> Store<S> {
    /// Opens the tables: the office that they stand for, or the empty one of a database that has none of
    /// them, where they are made in one transaction. Tables of an earlier edition are migrated in one
    /// transaction. Other tables are left alone. With a fault the connection is given back.
    pub fn open(
        alloc: Global,
        mut conn: Connection<S>,
    ) -> Result<(Store<S>, Office), (StoreFault, Connection<S>)>
        ensures opened { IfOk result (λ it. IsOpening S.Store conn it.0 it.1) }
        ensures unopened { IfErr result (λ it.
            let fault = it.0 in IsLeftUnopened S.Store (fault ≡ StoreFault.Storage) (fault ≡ StoreFault.Damaged) conn it.1) }

        // Where a transaction is open already it is not out of memory, and no damage.
        ensures begun { IsTrue conn.in_transaction → IsErr result × IfErr result (λ it. it.0 ≡ StoreFault.Storage) }

        // Tables that are there and are not listed as they are made here are damaged.
        ensures unlisted { conn.in_transaction ≡ false → (HasNone (state S.Store conn).now.schema → ⊥)
            → (AreListed (state S.Store conn).now.schema → ⊥) → IsErr result × IfErr result (λ it. it.0 ≡ StoreFault.Damaged) }
    {
        match open_tables(alloc, &mut conn) {
            Ok(office) => Ok((Store { conn, alloc }, office)),
            Err(fault) => Err((fault, conn)),
        }
    }

    /// Reads the office that the tables stand for, in the latest edition. `Damaged`: they stand for none. A transaction that is open
    /// already is a fault of the storage. Nothing changes.
    pub fn load(&mut self) -> Result<Office, StoreFault>
        ensures ok { HasCleanDisk (state S.Store self.new) → IfOk result (StandsFor (state S.Store self.old).now) }
        ensures damaged { HasCleanDisk (state S.Store self.new) → result ≡ Err StoreFault.Damaged
            → IsUnfitIn latest (state S.Store self.old).now }
        ensures unlisted { self.old.in_transaction ≡ false → (AreAllListed (rolls_of latest) (state S.Store self.old).now.schema → ⊥)
            → result ≡ Err StoreFault.Damaged }
        ensures reads { self.old.in_transaction ≡ false
            → IsReading StoreFault.Storage IsHinderedReading result (state S.Store self.old) (state S.Store self.new) }
        ensures begun { IsTrue self.old.in_transaction → (result ≡ Err StoreFault.Storage) × (self.new ≡ self.old) }
    {
        if !self.conn.is_autocommit() {
            return Err(StoreFault::Storage);
        }
        let (office, _) = office_in(self.alloc, &mut self.conn, LATEST)?;
        Ok(office)
    }

    /// Makes the changes in one transaction, which touches only the rows that they name. An `Err` is out of memory, or a database error.
    pub fn save(&mut self, changes: &[Change]) -> Result<(), StoreFault>
        ensures saved { HasCleanDisk (state S.Store self.new)
            → OnOk result (IsSaving changes.now (state S.Store self.old) (state S.Store self.new)) }
        ensures safe { IsSafe S.Store (MayRecoverTo (Saves changes.now) (state S.Store self.old)) result self.old self.new }
        ensures faults { result ≢ Err StoreFault.Damaged }

        // Nothing is saved where a foreign key would write other rows too.
        ensures acted_on { AreActedOn (state S.Store self.old).now.schema → result ≡ Err StoreFault.Storage }

        // Why else the storage has failed, but for an open transaction: a shut connection, a fault of the disk, or a refused statement.
        ensures cause { self.old.in_transaction ≡ false → (AreActedOn (state S.Store self.old).now.schema → ⊥)
            → IsCaused StoreFault.Storage (IsHinderedAmong changes.now) result (state S.Store self.old) (state S.Store self.new) }
    {
        // Asked at each save, and not at the opening: such tables too stand for an office, and only a change would go on to others.
        if !are_left(self.conn.schema()) {
            return Err(StoreFault::Storage);
        }
        transact(&mut self.conn, Task::Save, changes)
    }

    /// An open connection shows a database.
    pub fn shows(&self)
        ensures live { IsLive (state S.Store self.now) }
    {
        // Asked for its clause *live* alone.
        let _ = self.conn.schema();
    }

    /// Gives the connection up. Allocates nothing.
    pub fn into_connection(self) -> Connection<S>
        ensures same { result ≡ self }
    {
        let Store { conn, alloc: _ } = self;
        conn
    }
}
