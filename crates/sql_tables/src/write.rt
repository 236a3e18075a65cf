//! One statement in a transaction.

ghost use Rattle.std.specs.Prelude.{◌≡◌, ◌≤◌, length, take};
ghost use Rattle.sqlite_value.specs.Value.{owned};
ghost use Rattle.sqlite.specs.Values.{bound, bound_value};
ghost use Rattle.sql_tables.specs.Inside.Steps.{IsWritten};
ghost use Rattle.sql_tables.specs.Table.{value_of, values};

use crate::fault::TableFault;
use schema::Cell;
use sqlite::{Alter, Transaction};
use sqlite_value::value::ValueRef;

/// How many columns a table has at most.
const WIDEST: usize = 4;

/// Returns the value of a cell.
fn value(cell: &Cell) -> ValueRef<'_>
    ensures { bound_value (owned result) ≡ value_of cell.now }
{
    match cell {
        Cell::Text(text) => ValueRef::Text(text.as_str().as_bytes()),
        Cell::Number(number) => ValueRef::Int(i64::from(*number)),
        Cell::Bytes(bytes) => ValueRef::Blob(bytes.as_slice()),
    }
}

/// Returns the values of these cells, and NULL after them.
fn values(cells: &[Cell]) -> [ValueRef<'_>; WIDEST]
    requires { length cells.now ≤ 4 }
    ensures long { length result ≡ 4 }
    ensures values { bound (take (length cells.now) result) ≡ values cells.now }
{
    // An array, since values that borrow are made without an allocation.
    let mut values = [ValueRef::Null; WIDEST];
    for (at, cell) in cells.iter().enumerate() {
        values[at] = value(cell);
    }
    values
}

/// Runs a statement with these cells as its parameters, and returns how many rows it wrote.
pub(crate) fn write<S: Alter>(
    tx: &mut Transaction<'_, S>,
    sql: &str,
    cells: &[Cell],
) -> Result<usize, TableFault>
    requires { length cells.now ≤ 4 }

    ensures same_reference { tx.new.conn.ghost_name ≡ tx.old.conn.ghost_name }
    ensures step { IsWritten S.Store sql.now (values cells.now) result tx.old.conn.now tx.new.conn.now }
{
    match tx.execute(sql, &values(cells)[..cells.len()]) {
        Ok(count) => Ok(count),
        Err(error) => Err(TableFault::from(error)),
    }
}
