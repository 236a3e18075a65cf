//! What brings the rows of an earlier edition of the tables to the latest. Nothing here knows of SQL: the changes are made as those of a
//! request are.

ghost use Rattle.std.specs.Prelude.{◌≡◌, ◌++◌, IfOk, map, filter};
ghost use Rattle.store.specs.Inside.Reading as reading;
ghost use Rattle.store.specs.Migration as spec;

use crate::edition::Edition;
use office_model::{Cell, Change, Row, Table};
use std::alloc::{AllocError, Global};

/// Returns the aims of the rounds among rows of the first edition.
fn aims_of(alloc: Global, rows: &[Row]) -> Result<Vec<Row>, AllocError>
    ensures { IfOk result (λ aims. aims.items ≡ spec.aims_of rows.now) }
{
    let mut aims = Vec::new(alloc);
    for row in rows {
        if matches!(row.table(), Table::Round) {
            let number = row.cells()[0].copy(alloc)?;
            let cells = vec![in alloc; number, Cell::Number(0)]?;
            aims.push(Row::of(Table::RoundAim, cells))?;
        }
    }
    Ok(aims)
}

/// Returns the table that took a table's place, and the other way round.
fn renamed_table(table: Table) -> Table
    ensures { result ≡ spec.renamed table }
{
    match table {
        Table::Choice => Table::OldChoice,
        Table::Placement => Table::OldPlacement,
        Table::OldChoice => Table::Choice,
        Table::OldPlacement => Table::Placement,
        other => other,
    }
}

/// Returns a row of a table of earlier editions as one of the table that took its place, and the other way round.
fn renamed(row: Row) -> Row
    ensures { result ≡ spec.renamed_row row }
{
    let table = renamed_table(row.table());
    row.moved(table)
}

/// Does the same with each of these rows.
fn all_renamed(alloc: Global, rows: Vec<Row>) -> Result<Vec<Row>, AllocError>
    ensures { IfOk result (λ all. all.items ≡ map spec.renamed_row rows.items) }
{
    let mut all = Vec::with_capacity(alloc, rows.len())?;
    for row in rows {
        all.push(renamed(row))?;
    }
    Ok(all)
}

/// Returns what the rows of an edition are in the latest. An `Err` is out of memory.
pub fn migrated_rows(
    alloc: Global,
    edition: Edition,
    mut rows: Vec<Row>,
) -> Result<Vec<Row>, AllocError>
    ensures { IfOk result (λ all. all.items ≡ reading.migrated_rows edition rows.items) }
{
    match edition {
        Edition::First => {
            let mut aims = aims_of(alloc, &rows)?;
            rows.append(&mut aims)?;
            all_renamed(alloc, rows)
        }
        Edition::Second => all_renamed(alloc, rows),
        Edition::Third => Ok(rows),
    }
}

/// Whether a row is of a table of earlier editions.
fn is_old(row: &Row) -> bool
    ensures { result ≡ spec.is_old row.now }
{
    matches!(row.table(), Table::OldChoice | Table::OldPlacement)
}

/// Returns the removals of the rows of tables of earlier editions.
fn old_removals(alloc: Global, rows: &[Row]) -> Result<Vec<Change>, AllocError>
    ensures { IfOk result (λ changes. changes.items ≡ map spec.removal_of (filter spec.is_old rows.now)) }
{
    let mut changes = Vec::new(alloc);
    for row in rows {
        if is_old(row) {
            changes.push(Change::Remove(row.key(alloc)?))?;
        }
    }
    Ok(changes)
}

/// Returns those rows as they stand in the tables that took their place.
fn all_old_renamed(alloc: Global, rows: &[Row]) -> Result<Vec<Row>, AllocError>
    ensures { IfOk result (λ all. all.items ≡ map spec.renamed_row (filter spec.is_old rows.now)) }
{
    let mut all = Vec::new(alloc);
    for row in rows {
        if is_old(row) {
            all.push(renamed(row.copy(alloc)?))?;
        }
    }
    Ok(all)
}

/// Returns the changes by which rows of earlier editions leave their tables for those that took their place, and others come besides.
fn renaming_changes(
    alloc: Global,
    rows: &[Row],
    mut more: Vec<Row>,
) -> Result<Vec<Change>, AllocError>
    ensures { IfOk result (λ changes. changes.items ≡ spec.renaming_changes rows.now more.items) }
{
    let mut changes = old_removals(alloc, rows)?;
    let mut news = all_old_renamed(alloc, rows)?;
    news.append(&mut more)?;
    for row in news {
        changes.push(Change::Add(row))?;
    }
    Ok(changes)
}

/// Returns the changes that bring the rows of an edition to the latest. An `Err` is out of memory.
pub fn migrating_changes(
    alloc: Global,
    edition: Edition,
    rows: &[Row],
) -> Result<Vec<Change>, AllocError>
    ensures { IfOk result (λ changes. changes.items ≡ spec.migrating_changes edition rows.now) }
{
    match edition {
        Edition::First => {
            let aims = aims_of(alloc, rows)?;
            renaming_changes(alloc, rows, aims)
        }
        Edition::Second => renaming_changes(alloc, rows, Vec::new(alloc)),
        Edition::Third => Ok(Vec::new(alloc)),
    }
}
