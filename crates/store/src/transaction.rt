//! One transaction, in which tables are made or migrated, or changes are saved.

ghost use Rattle.std.specs.Prelude.{◌≡◌, ◌≢◌, false, OnOk};
ghost use Rattle.store.specs.Common.{HasCleanDisk, state, IsCaused, each_of, making, HasSaved, MayRecoverTo, Steps, Runs};
ghost use Rattle.store.specs.Causes.{applying, creating, latest_number, migrating, task_of};
ghost use Rattle.store.specs.Saving.{IsSafe};

use crate::all_tables::TABLES;
use crate::edition::{Edition, LATEST, beyond, number_of};
use crate::fault::StoreFault;
use schema::{Cell, Change};
use sql_tables::Table;
use sql_tables::fault::TableFault;
use sql_tables::ready::need_open;
use sql_tables::statements::{Entering, enter, leave, make};
use sqlite::{Alter, Connection, Transaction};

/// What a transaction is for.
#[derive(Clone, Copy, Drop)]
pub enum Task {
    /// To make each table, of the latest edition.
    Create,
    /// To migrate the tables of an earlier edition, by changes.
    Migrate(Edition),
    /// To save changes.
    Save,
}

/// Makes the changes in order.
fn apply<S: Alter>(tx: &mut Transaction<'_, S>, changes: &[Change]) -> Result<(), TableFault>
    ensures same_reference { tx.new.conn.ghost_name ≡ tx.old.conn.ghost_name }
    ensures step { Runs S.Store (each_of applying changes.now) result tx.old.conn.now tx.new.conn.now }
{
    for change in changes {
        match change {
            Change::Put(row) => enter(tx, Entering::InPlace, row.table(), row.cells())?,
            Change::Add(row) => enter(tx, Entering::New, row.table(), row.cells())?,
            Change::Remove(part) => leave(tx, part.group(), part.cells())?,
        }
    }
    Ok(())
}

/// Makes each of these tables.
fn make_each<S: Alter>(tx: &mut Transaction<'_, S>, tables: &[Table]) -> Result<(), TableFault>
    ensures same_reference { tx.new.conn.ghost_name ≡ tx.old.conn.ghost_name }
    ensures step { Runs S.Store (each_of making tables.now) result tx.old.conn.now tx.new.conn.now }
{
    for table in tables {
        make(tx, *table)?;
    }
    Ok(())
}

/// Returns the row of the latest edition.
fn edition_row() -> [Cell; 2]
    ensures { result ≡ latest_number }
{
    [Cell::Number(1), Cell::Number(number_of(LATEST))]
}

/// Makes each table, and says which edition this is.
fn create<S: Alter>(tx: &mut Transaction<'_, S>) -> Result<(), TableFault>
    ensures same_reference { tx.new.conn.ghost_name ≡ tx.old.conn.ghost_name }
    ensures step { Steps S.Store creating result tx.old.conn.now tx.new.conn.now }
{
    make_each(tx, &TABLES)?;
    // In the transaction that makes the tables: so no crash leaves tables without their number.
    enter(tx, Entering::New, Table::Edition, &edition_row())
}

/// Puts the number of the latest edition, makes the tables that an edition lacks, and then the changes that fill them and empty
/// others.
fn migrate<S: Alter>(
    tx: &mut Transaction<'_, S>,
    edition: Edition,
    changes: &[Change],
) -> Result<(), TableFault>
    ensures same_reference { tx.new.conn.ghost_name ≡ tx.old.conn.ghost_name }
    ensures step { Steps S.Store (migrating edition changes.now) result tx.old.conn.now tx.new.conn.now }
{
    enter(tx, Entering::InPlace, Table::Edition, &edition_row())?;
    make_each(tx, beyond(edition))?;
    apply(tx, changes)
}

/// Does the task.
fn perform<S: Alter>(
    tx: &mut Transaction<'_, S>,
    task: Task,
    changes: &[Change],
) -> Result<(), TableFault>
    ensures same_reference { tx.new.conn.ghost_name ≡ tx.old.conn.ghost_name }
    ensures step { Runs S.Store (task_of task changes.now) result tx.old.conn.now tx.new.conn.now }
{
    match task {
        Task::Create => create(tx),
        Task::Migrate(edition) => migrate(tx, edition, changes),
        Task::Save => apply(tx, changes),
    }
}

/// Does the task in one transaction. A connection that a fault of the disk has shut is returned as a fault before it begins.
pub fn transact<S: Alter>(
    conn: &mut Connection<S>,
    task: Task,
    changes: &[Change],
) -> Result<(), StoreFault>
    ensures saved { HasCleanDisk (state S.Store conn.new)
        → OnOk result (HasSaved (let it = task_of task changes.now in it.does) (state S.Store conn.old) (state S.Store conn.new)) }
    ensures safe { IsSafe S.Store (MayRecoverTo (let it = task_of task changes.now in it.does) (state S.Store conn.old)) result
        conn.old conn.new }
    ensures faults { result ≢ Err StoreFault.Damaged }
    ensures cause { conn.old.in_transaction ≡ false
        → IsCaused StoreFault.Storage (let it = task_of task changes.now in it.hinders) result
        (state S.Store conn.old) (state S.Store conn.new) }
{
    if !conn.is_autocommit() {
        return Err(StoreFault::Storage);
    }
    // Only of an open connection can it be said that a crash leaves a database (`need_open` *sound*).
    need_open(conn)?;
    let mut tx = conn.transaction();
    // Where a statement fails `tx` is dropped, which undoes those before it.
    perform(&mut tx, task, changes)?;
    Ok(tx.commit()?)
}
