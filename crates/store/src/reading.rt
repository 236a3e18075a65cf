//! Reading the office from its tables.

ghost use Rattle.std.specs.Prelude.{◌≡◌, ◌≢◌, IsTrue, false, pos, IfErr, IfOk, IfSome, OnOk, Err, None, List, map, drop};
ghost use Rattle.store.specs.Common.{Int, column, HasCleanDisk, state, IsReading, IsUnread, table_at, State, IsFit, AreRowsOf, IsListed};
ghost use Rattle.store.specs.Causes.{IsHinderedReading};
ghost use Rattle.store.specs.Inside.Reading.{IsHinderedReadingIn, IsAlone, IsElsewhere, IsListedAlone, ReadsTable, FindsOffice, HoldsNoRow, HoldsRows, ReadsAll, HoldsUnread};
ghost use Rattle.store.specs.Editions.{number_of, rolls_of};
ghost use Rattle.store.specs.Tables.{numbered};
ghost use Rattle.store.specs.Reading.{AreAllListed, IsUnfitIn};

use crate::edition::{Edition, number_of, rolls_of};
use crate::fault::StoreFault;
use crate::migration::{migrated_rows, migrating_changes};
use crate::rows::rows_with;
use office::Office;
use office_model::{Change, Row};
use sql_tables::Table;
use sql_tables::layout::tree_of;
use sql_tables::statements::read;
use sqlite::{Alter, Connection, Row as Cells};
use sqlite_schema::schema::Schema;
use sqlite_value::value::ValueRef;
use std::alloc::Global;

/// Whether another table is listed in this tree.
fn shares(schema: &Schema, other: Table, table: Table, tree: u32) -> bool
    ensures right { IsTrue result → (other ≢ table) × IsListed (table_at other) schema.now tree }
    ensures wrong { result ≡ false → other ≢ table → IsElsewhere other tree schema.now }
{
    if other == table {
        return false;
    }
    match tree_of(schema, other) {
        Some(there) => there == tree,
        None => false,
    }
}

/// Whether no other one of these tables is listed in this tree.
fn is_alone(schema: &Schema, tables: &[Table], table: Table, tree: u32) -> bool
    ensures right { IsTrue result → IsAlone tables.now table tree schema.now }
    ensures wrong { result ≡ false → IsAlone tables.now table tree schema.now → ⊥ }
{
    // Under two names in one tree there would be one list of rows, and a statement over one table would change the other.
    for other in tables {
        if shares(schema, *other, table, tree) {
            return false;
        }
    }
    true
}

/// Whether one of these tables is listed as it is made here, in a tree of its own.
fn is_listed(schema: &Schema, tables: &[Table], edition: u32, table: Table) -> bool
    ensures right { IsTrue result → IsListedAlone tables.now edition schema.now table }
    ensures wrong { result ≡ false → IsListedAlone tables.now edition schema.now table → ⊥ }
{
    match tree_of(schema, table) {
        Some(tree) => tree != edition && is_alone(schema, tables, table, tree),
        None => false,
    }
}

/// Whether the edition's table and these are listed as they are made here, each in a tree of its own.
fn are_all_listed(schema: &Schema, tables: &[Table]) -> bool
    ensures right { IsTrue result → AreAllListed tables.now schema.now }
    ensures wrong { result ≡ false → AreAllListed tables.now schema.now → ⊥ }
{
    let Some(edition) = tree_of(schema, Table::Edition) else {
        return false;
    };
    for table in tables {
        if !is_listed(schema, tables, edition, *table) {
            return false;
        }
    }
    true
}

/// Whether this column is this number.
fn is_number(cells: &Cells, at: usize, number: u32) -> bool
    ensures right { IsTrue result → column cells.now at ≡ Int (pos number) }
    ensures wrong { result ≡ false → column cells.now at ≢ Int (pos number) }
{
    match cells.get_ref(at) {
        Ok(ValueRef::Int(there)) => there == i64::from(number),
        _ => false,
    }
}

/// Whether the rows of the edition's table are one with the number of this edition.
fn are_numbered(all: &[Cells], edition: Edition) -> bool
    ensures right { IsTrue result → map (drop 1) all.now ≡ numbered (number_of edition) }
    ensures wrong { result ≡ false → map (drop 1) all.now ≢ numbered (number_of edition) }
{
    let number = number_of(edition);
    match all {
        // A rowid, the id 1 and the number. Two rows would leave open which of them is meant.
        [cells] => {
            cells.column_count() == 3 && is_number(cells, 1, 1) && is_number(cells, 2, number)
        }
        _ => false,
    }
}

/// Fails where the rows of the edition's table are not the one with the number of this edition.
fn need_number(all: &[Cells], edition: Edition) -> Result<(), StoreFault>
    ensures ok { OnOk result (map (drop 1) all.now ≡ numbered (number_of edition)) }
    ensures err { IfErr result (λ fault. (fault ≡ StoreFault.Damaged) × (map (drop 1) all.now ≢ numbered (number_of edition))) }
{
    if are_numbered(all, edition) {
        Ok(())
    } else {
        Err(StoreFault::Damaged)
    }
}

/// Reads the rows of a table.
fn read_table<S: Alter>(
    alloc: Global,
    conn: &mut Connection<S>,
    table: Table,
) -> Result<Vec<Row>, StoreFault>
    ensures rows { HasCleanDisk (state S.Store conn.new)
        → IfOk result (λ rows. ReadsTable table rows.items (state S.Store conn.old) (state S.Store conn.new)) }
    ensures damaged { HasCleanDisk (state S.Store conn.new) → result ≡ Err StoreFault.Damaged → IsTrue (state S.Store conn.old).is_open
        × HoldsNoRow table (state S.Store conn.old).now }
    ensures reads { IsReading StoreFault.Storage (IsUnread (table_at table)) result (state S.Store conn.old) (state S.Store conn.new) }
{
    let cells = read(conn, table)?;
    rows_with(alloc, table, cells.as_slice())
}

/// Reads the rows of the tables of an edition.
fn read_rows<S: Alter>(
    alloc: Global,
    conn: &mut Connection<S>,
    edition: Edition,
) -> Result<Vec<Row>, StoreFault>
    ensures rows { HasCleanDisk (state S.Store conn.new)
        → IfOk result (λ rows. ReadsAll (rolls_of edition) rows.items (state S.Store conn.old) (state S.Store conn.new)) }
    ensures damaged { HasCleanDisk (state S.Store conn.new) → result ≡ Err StoreFault.Damaged
        → HoldsUnread (rolls_of edition) (state S.Store conn.old) }
    ensures reads { IsReading StoreFault.Storage (IsHinderedReadingIn edition) result (state S.Store conn.old) (state S.Store conn.new) }
{
    let tables = rolls_of(edition);
    let mut rows = Vec::new(alloc);
    for table in tables {
        let mut more = read_table(alloc, conn, *table)?;
        rows.append(&mut more)?;
    }
    Ok(rows)
}

/// Reads the rows of the tables of an edition, after the number was read.
fn rows_in<S: Alter>(
    alloc: Global,
    conn: &mut Connection<S>,
    edition: Edition,
) -> Result<Vec<Row>, StoreFault>
    ensures rows { HasCleanDisk (state S.Store conn.new)
        → IfOk result (λ rows. HoldsRows edition rows.items (state S.Store conn.old) (state S.Store conn.new)) }
    ensures unlisted { (AreAllListed (rolls_of edition) (state S.Store conn.old).now.schema → ⊥) → result ≡ Err StoreFault.Damaged }
    ensures damaged { HasCleanDisk (state S.Store conn.new) → result ≡ Err StoreFault.Damaged
        → IsUnfitIn edition (state S.Store conn.old).now }
    ensures reads { IsReading StoreFault.Storage IsHinderedReading result (state S.Store conn.old) (state S.Store conn.new) }
{
    // Before anything is read: of a table that is listed otherwise no reading says which rows it has.
    if !are_all_listed(conn.schema(), rolls_of(edition)) {
        return Err(StoreFault::Damaged);
    }
    let number = read(conn, Table::Edition)?;
    need_number(number.as_slice(), edition)?;
    let rows = read_rows(alloc, conn, edition)?;
    Ok(rows)
}

/// Returns the office of rows that were read.
fn office_from(alloc: Global, rows: Vec<Row>) -> Result<Office, StoreFault>
    ensures rows { IfOk result (λ office. AreRowsOf rows.items office) }
    ensures fit { IfOk result IsFit }
    ensures unfit { result ≡ Err StoreFault.Damaged → (o : State) → IsFit o → AreRowsOf rows.items o → ⊥ }
    ensures faults { result ≢ Err StoreFault.Storage }
{
    Ok(Office::from_rows(alloc, rows)?)
}

/// Returns the office of the tables of an edition, where none is being written, and the changes that migrate them. `Damaged`: they stand
/// for none.
pub fn office_in<S: Alter>(
    alloc: Global,
    conn: &mut Connection<S>,
    edition: Edition,
) -> Result<(Office, Vec<Change>), StoreFault>
    ensures ok { HasCleanDisk (state S.Store conn.new)
        → IfOk result (λ it. FindsOffice edition it.0 it.1.items (state S.Store conn.old) (state S.Store conn.new)) }
    ensures unlisted { (AreAllListed (rolls_of edition) (state S.Store conn.old).now.schema → ⊥) → result ≡ Err StoreFault.Damaged }
    ensures damaged { HasCleanDisk (state S.Store conn.new) → result ≡ Err StoreFault.Damaged
        → IsUnfitIn edition (state S.Store conn.old).now }
    ensures reads { IsReading StoreFault.Storage IsHinderedReading result (state S.Store conn.old) (state S.Store conn.new) }
{
    let rows = rows_in(alloc, conn, edition)?;
    // While the rows of this edition are there: `migrated_rows` takes them over.
    let changes = migrating_changes(alloc, edition, &rows)?;
    let all = migrated_rows(alloc, edition, rows)?;
    let office = office_from(alloc, all)?;
    Ok((office, changes))
}
