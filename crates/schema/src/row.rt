//! A row of a table, and rows that go together.

ghost use Rattle.std.specs.Prelude.{◌≡◌, ◌≤◌, IfOk, length, take};
ghost use Rattle.schema.specs.Rows.{IsPart, IsRow, kinds_of, keyed, key_in};
ghost use Rattle.schema.specs.declared.row.Group.TheVariants.{Key};

use crate::cell::Cell;
use crate::table::Table;
use std::alloc::{AllocError, Global};
use std::marker::Model;

/// A row of a table but that of the edition: a cell of its kind for each column.
#[derive(Drop)]
pub struct Row {
    table: Table,
    cells: Vec<Cell>,
}

impl Model for Row {
    ghost use Rattle.schema.specs.Rows.{RowOf, IsRow};

    ghost Value = { RowOf };

    ghost view = { λ r. record { table = r.table; cells = r.cells.items } };

    ghost invariant = { λ r. IsRow (record { table = r.table; cells = r.cells.items }) };
}

/// Returns these cells once more.
fn copied(alloc: Global, cells: &[Cell]) -> Result<Vec<Cell>, AllocError>
    ensures { IfOk result (λ copy. copy.items ≡ cells.now) }
{
    let mut copy = Vec::with_capacity(alloc, cells.len())?;
    for cell in cells {
        copy.push(cell.copy(alloc)?)?;
    }
    Ok(copy)
}

impl Row {
    /// Returns the row of these cells.
    pub fn of(table: Table, cells: Vec<Cell>) -> Self
        requires { IsRow (record { table = table; cells = cells.items }) }
        ensures { result ≡ record { table = table; cells = cells.items } }
    {
        Row { table, cells }
    }

    /// Returns its table.
    pub fn table(&self) -> Table
        ensures { let row = self.now in result ≡ row.table }
    {
        self.table
    }

    /// Returns its cells, in the order of the columns.
    pub fn cells(&self) -> &[Cell]
        ensures cells { let row = self.now in result.now ≡ row.cells }
        ensures row { IsRow self.now }
    {
        &self.cells
    }

    /// Returns the same row in a table with columns of the same kinds.
    pub fn moved(self, table: Table) -> Self
        requires { IsRow self → IsRow (record self { table = table }) }
        ensures { result ≡ record self { table = table } }
    {
        let Row { table: _, cells } = self;
        Row { table, cells }
    }

    /// Returns the same row, its texts in memory of their own.
    pub fn copy(&self, alloc: Global) -> Result<Self, AllocError>
        ensures { IfOk result (λ row. row ≡ self.now) }
    {
        let cells = copied(alloc, &self.cells)?;
        Ok(Row {
            table: self.table,
            cells,
        })
    }

    /// Returns the row with its key, as a part of its table. An `Err` is out of memory.
    pub fn key(&self, alloc: Global) -> Result<Part, AllocError>
        ensures { let row = self.now in IfOk result (λ part. part ≡ record { group = Key row.table; cells = key_in row.table row.cells }) }
    {
        let cells = copied(alloc, &self.cells[..self.table.keyed()])?;
        Ok(Part {
            group: Group::Key(self.table),
            cells,
        })
    }
}

/// Which rows of a table go together.
#[derive(Clone, Copy, Drop)]
pub enum Group {
    /// The row of the table with a key.
    Key(Table),
    /// The choices of a student in a round: the round's number and the student's code.
    List,
    /// The placements of a round: its number.
    Placed,
}

/// The rows of a group that have these cells.
#[derive(Drop)]
pub struct Part {
    group: Group,
    cells: Vec<Cell>,
}

impl Model for Part {
    ghost use Rattle.schema.specs.Rows.{PartOf, IsPart};

    ghost Value = { PartOf };

    ghost view = { λ p. record { group = p.group; cells = p.cells.items } };

    ghost invariant = { λ p. IsPart (record { group = p.group; cells = p.cells.items }) };
}

impl Part {
    /// Returns the rows of this group that have these cells.
    pub fn of(group: Group, cells: Vec<Cell>) -> Self
        requires { IsPart (record { group = group; cells = cells.items }) }
        ensures { result ≡ record { group = group; cells = cells.items } }
    {
        Part { group, cells }
    }

    /// Returns which rows go together.
    pub fn group(&self) -> Group
        ensures { let part = self.now in result ≡ part.group }
    {
        self.group
    }

    /// Returns the cells that they share.
    pub fn cells(&self) -> &[Cell]
        ensures cells { let part = self.now in result.now ≡ part.cells }
        ensures part { IsPart self.now }
    {
        &self.cells
    }
}

/// A change of the tables.
#[derive(Drop)]
pub enum Change {
    /// The row goes in the place of the one of its table that has its key.
    Put(Row),
    /// A row of a new key stands in its table.
    Add(Row),
    /// No row of this part stands in its table.
    Remove(Part),
}
