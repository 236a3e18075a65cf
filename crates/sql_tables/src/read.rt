//! Reading a whole table.

ghost use Rattle.std.specs.Prelude.{◌≡◌, ◌&&◌, IfOk, IfErr, IsTrue, false, []};
ghost use Rattle.sql_tables.specs.Common.{IsPermutation, IsSorted, HasCleanDisk, Survives, CommitsShowing, state, owned, is_int};
ghost use Rattle.sqlite_trees.specs.Tree.{rowid};
ghost use Rattle.sql_tables.specs.Causes.{FailsToRead, ShowsInOrder, by_rowid};
ghost use Rattle.sql_tables.specs.Inside.Steps.{RanQuery};
ghost use Rattle.sql_tables.specs.Keyed.{IsKeyed, comes_first, rises, have_ids};

use crate::fault::TableFault;
use sqlite::{Alter, Connection, Row};
use sqlite_value::order::compare;
use sqlite_value::value::ValueRef;
use std::cmp::Ordering;

/// Returns the rowid of a row that a query shows after it.
fn id_of(row: &Row) -> ValueRef<'_>
    ensures { owned result ≡ rowid row.now }
{
    match row.get_ref(0) {
        Ok(id) => id,
        // A row without columns. NULL is no rowid either, so `has_id` refuses both.
        Err(_) => ValueRef::Null,
    }
}

fn has_id(row: &Row) -> bool
    ensures { result ≡ is_int (rowid row.now) }
{
    matches!(id_of(row), ValueRef::Int(_))
}

fn by_rowid(a: &Row, b: &Row) -> Ordering
    ensures { result ≡ by_rowid a.now b.now }
{
    compare(id_of(a), id_of(b))
}

fn comes_first(row: &Row, more: &[Row]) -> bool
    ensures { result ≡ comes_first row.now more.now }
{
    match more {
        // Below the next one is enough: the order is transitive, so each is below all that follow.
        [next, ..] => by_rowid(row, next) == Ordering::Less,
        [] => true,
    }
}

fn rise(rows: &[Row]) -> bool
    ensures { result ≡ rises rows.now }
{
    let mut rest = rows;
    while let [row, more @ ..] = rest {
        if !comes_first(row, more) {
            return false;
        }
        rest = more;
    }
    true
}

fn have_ids(rows: &[Row]) -> bool
    ensures { result ≡ have_ids rows.now }
{
    rows.iter().all(|row| has_id(row))
}

/// Whether the rowids are integers, and no two are one.
#[tactic(auto, using(crate::proofs::RowidsRise::keyed_tells))]
fn are_keyed(rows: &[Row]) -> bool
    ensures right { IsTrue result → IsKeyed rows.now }
    ensures exact { result ≡ (have_ids rows.now && rises rows.now) }
{
    have_ids(rows) && rise(rows)
}

/// Puts the rows in the order of their rowids.
fn put_in_order(rows: &mut Vec<Row>)
    ensures same { IsPermutation rows.old.items rows.new.items }
    ensures sorted { IsSorted by_rowid rows.new.items }
{
    // Rows of one rowid are refused after this, so how they stand to each other does not matter.
    rows.sort_unstable_by(by_rowid);
}

/// Reads the rows that a query shows, each after its rowid, in the order of these.
pub(crate) fn read_text<S: Alter>(
    conn: &mut Connection<S>,
    sql: &str,
) -> Result<Vec<Row>, TableFault>
    ensures keyed { IfOk result (λ rows. IsKeyed rows.items) }
    ensures shown { HasCleanDisk (state S.Store conn.new)
        → IfOk result (λ rows. ShowsInOrder sql.now rows.items (state S.Store conn.old) (state S.Store conn.new)) }

    // Why it fails: the query fails, and the fault is that of its error, or two of its rows have one rowid, or one has none.
    ensures ran { HasCleanDisk (state S.Store conn.new) → RanQuery sql.now (state S.Store conn.old) (state S.Store conn.new)
        × IfErr result (λ fault. FailsToRead sql.now fault (state S.Store conn.old) (state S.Store conn.new)) }
    ensures mode { conn.old.in_transaction ≡ false → conn.new.in_transaction ≡ false }
    ensures survives { Survives (state S.Store conn.old) (state S.Store conn.new) (CommitsShowing sql.now [] (state S.Store conn.old)) }
{
    // A query without ORDER BY may show its rows in any order.
    let mut rows = conn.query_all(sql, &[])?;
    put_in_order(&mut rows);
    // No contract of the database rules out two rows of one rowid.
    if !are_keyed(rows.as_slice()) {
        return Err(TableFault::Storage);
    }
    Ok(rows)
}
