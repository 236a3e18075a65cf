//! Rows as they are read: by the kinds of the columns.

ghost use Rattle.std.specs.Prelude.{◌≡◌, ◌≢◌, true, IfOk, drop};
ghost use Rattle.store.specs.Common.{Values, column, Has, AnyCell, is_of};
ghost use Rattle.store.specs.Rows.{value_of};
ghost use Rattle.store.specs.Inside.Reading.{AreReadRows, IsNoRow, IsRowWith, IsTyped};

use crate::fault::StoreFault;
use schema::{Bytes, Cell, Kind, Row, Table, Text};
use sqlite::Row as Columns;
use sqlite_value::value::ValueRef;
use std::alloc::Global;

/// Returns the cell in a column, where it has one of this kind.
fn cell_at(alloc: Global, columns: &Columns, at: usize, kind: Kind) -> Result<Cell, StoreFault>
    ensures cell { IfOk result (λ cell. (column columns.now at ≡ value_of cell) × (is_of kind cell ≡ true)) }
    ensures damaged { result ≡ Err StoreFault.Damaged → (cell : AnyCell) → IsTyped cell → is_of kind cell ≡ true
        → column columns.now at ≢ value_of cell }
    ensures memory { result ≡ Err StoreFault.Memory → (cell : AnyCell) × IsTyped cell × (is_of kind cell ≡ true)
        × (column columns.now at ≡ value_of cell) }
    ensures faults { result ≢ Err StoreFault.Storage }
{
    let Ok(value) = columns.get_ref(at) else {
        return Err(StoreFault::Damaged);
    };
    match (kind, value) {
        (Kind::Text, ValueRef::Text(bytes)) => {
            // The database takes any bytes as a TEXT, an office only UTF-8.
            let Ok(text) = std::str::from_utf8(bytes) else {
                return Err(StoreFault::Damaged);
            };
            Ok(Cell::text(alloc, text)?)
        }
        // SQL's integers are wider than any number of an office.
        (Kind::Number, ValueRef::Int(number)) => match u32::try_from(number) {
            Ok(number) => Ok(Cell::Number(number)),
            Err(_) => Err(StoreFault::Damaged),
        },
        (Kind::Bytes, ValueRef::Blob(bytes)) => {
            let bytes = Vec::from_slice(alloc, bytes)?;
            Ok(Cell::Bytes(Bytes::new(alloc, bytes)?))
        }
        _ => Err(StoreFault::Damaged),
    }
}

/// Returns the row with these columns, which come after its rowid.
fn row_with(alloc: Global, table: Table, columns: &Columns) -> Result<Row, StoreFault>
    ensures row { IfOk result (IsRowWith table columns.now) }
    ensures damaged { result ≡ Err StoreFault.Damaged → IsNoRow table (drop 1 columns.now) }
    ensures faults { result ≢ Err StoreFault.Storage }
{
    let kinds = table.kinds();
    // The edition's row is of no office, and is judged where its number is read. One column more, since the rowid comes first.
    if table == Table::Edition || columns.column_count() != kinds.len() + 1 {
        return Err(StoreFault::Damaged);
    }
    let mut cells = Vec::with_capacity(alloc, kinds.len())?;
    for (at, kind) in kinds.iter().enumerate() {
        cells.push(cell_at(alloc, columns, at + 1, *kind)?)?;
    }
    Ok(Row::of(table, cells))
}

/// Returns the rows with these columns. `Damaged` where some are of no row of the table, `Memory` where it runs out.
pub fn rows_with(alloc: Global, table: Table, all: &[Columns]) -> Result<Vec<Row>, StoreFault>
    ensures rows { IfOk result (λ rows. AreReadRows table all.now rows.items) }
    ensures damaged { result ≡ Err StoreFault.Damaged → (columns : Values) × Has all.now columns × IsNoRow table (drop 1 columns) }
    ensures faults { result ≢ Err StoreFault.Storage }
{
    let mut rows = Vec::new(alloc);
    for columns in all {
        rows.push(row_with(alloc, table, columns)?)?;
    }
    Ok(rows)
}
