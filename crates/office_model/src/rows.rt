//! The rows of entries, and which rows of the tables go together.

ghost use Rattle.std.specs.Prelude.{◌≡◌, IfOk};
ghost use Rattle.office_model.specs.Making as spec;
ghost use Rattle.office_model.specs.Rows.{aim_cells, choice_cells, flag, import_cells, placement_cells, project_cells, student_cells, supervisor_cells};

use crate::entries::{Project, Student, Supervisor};
use crate::import::Import;
use crate::rounds::{Placement, RoundAim};
use schema::{Cell, Group, Part, Row, Table};
use spa::Aim;
use std::alloc::{AllocError, Global};

/// Returns a truth value in a cell.
fn flag(is_so: bool) -> Cell
    ensures { result ≡ flag is_so }
{
    Cell::Number(if is_so { 1 } else { 0 })
}

impl Supervisor {
    /// Returns the supervisor's row. An `Err` is out of memory.
    pub fn row(&self, alloc: Global) -> Result<Row, AllocError>
        ensures { IfOk result (λ row. row ≡ record { table = Table.Supervisor; cells = supervisor_cells self.now }) }
    {
        let code = Cell::text(alloc, self.code.as_str())?;
        let label = Cell::text(alloc, self.label.as_str())?;
        let cells = vec![in alloc; code, label, Cell::Number(self.quota)]?;
        Ok(Row::of(Table::Supervisor, cells))
    }
}

impl Project {
    /// Returns the project's row. An `Err` is out of memory.
    pub fn row(&self, alloc: Global) -> Result<Row, AllocError>
        ensures { IfOk result (λ row. row ≡ record { table = Table.Project; cells = project_cells self.now }) }
    {
        let code = Cell::text(alloc, self.code.as_str())?;
        let label = Cell::text(alloc, self.label.as_str())?;
        let supervisor = Cell::text(alloc, self.supervisor.as_str())?;
        let cells = vec![in alloc; code, label, supervisor, Cell::Number(self.quota)]?;
        Ok(Row::of(Table::Project, cells))
    }
}

impl Student {
    /// Returns the student's row. An `Err` is out of memory.
    pub fn row(&self, alloc: Global) -> Result<Row, AllocError>
        ensures { IfOk result (λ row. row ≡ record { table = Table.Student; cells = student_cells self.now }) }
    {
        let code = Cell::text(alloc, self.code.as_str())?;
        let label = Cell::text(alloc, self.label.as_str())?;
        let cells = vec![in alloc; code, label]?;
        Ok(Row::of(Table::Student, cells))
    }
}

impl RoundAim {
    /// Returns the row of the round's aim. An `Err` is out of memory.
    pub fn row(&self, alloc: Global) -> Result<Row, AllocError>
        ensures { IfOk result (λ row. row ≡ record { table = Table.RoundAim; cells = aim_cells self.now }) }
    {
        let generous = match self.aim {
            Aim::Greedy => false,
            Aim::Generous => true,
        };
        let cells = vec![in alloc; Cell::Number(self.round), flag(generous)]?;
        Ok(Row::of(Table::RoundAim, cells))
    }
}

impl Placement {
    /// Returns the placement's row. An `Err` is out of memory.
    pub fn row(&self, alloc: Global) -> Result<Row, AllocError>
        ensures { IfOk result (λ row. row ≡ record { table = Table.Placement; cells = placement_cells self.now }) }
    {
        let student = Cell::text(alloc, self.student.as_str())?;
        let project = Cell::text(alloc, self.project.as_str())?;
        let cells = vec![in alloc;
            student,
            Cell::Number(self.round),
            project,
            Cell::Number(self.rank),
        ]?;
        Ok(Row::of(Table::Placement, cells))
    }
}

impl Import {
    /// Returns the import's row. It shares the text. An `Err` is out of memory.
    pub fn row(&self, alloc: Global) -> Result<Row, AllocError>
        ensures { IfOk result (λ row. row ≡ record { table = Table.Import; cells = import_cells self.now }) }
    {
        let id = Cell::text(alloc, self.id.as_str())?;
        let kind = Cell::text(alloc, self.kind.word())?;
        let bytes = Cell::Bytes(self.bytes.copy()?);
        let cells = vec![in alloc; id, kind, bytes, Cell::Number(self.rows)]?;
        Ok(Row::of(Table::Import, cells))
    }
}

/// Returns the row of a round of this number. An `Err` is out of memory.
pub fn round_row(alloc: Global, round: u32, is_open: bool) -> Result<Row, AllocError>
    ensures { IfOk result (λ row. row ≡ spec.round_row round is_open) }
{
    let cells = vec![in alloc; Cell::Number(round), flag(is_open)]?;
    Ok(Row::of(Table::Round, cells))
}

/// Returns the row of the choice at a place of a student's list in a round. An `Err` is out of memory.
pub fn choice_row(
    alloc: Global,
    round: u32,
    student: &str,
    place: u32,
    project: &str,
) -> Result<Row, AllocError>
    ensures { IfOk result (λ row. row ≡ record { table = Table.Choice; cells = choice_cells round student.now place project.now }) }
{
    let student = Cell::text(alloc, student)?;
    let project = Cell::text(alloc, project)?;
    let cells = vec![in alloc; Cell::Number(round), student, Cell::Number(place), project]?;
    Ok(Row::of(Table::Choice, cells))
}

/// Returns the rows of a student's list in a round. An `Err` is out of memory.
pub fn list_part(alloc: Global, round: u32, student: &str) -> Result<Part, AllocError>
    ensures { IfOk result (λ part. part ≡ spec.list_part round student.now) }
{
    let student = Cell::text(alloc, student)?;
    let cells = vec![in alloc; Cell::Number(round), student]?;
    Ok(Part::of(Group::List, cells))
}

/// Returns the rows of a round's placements. An `Err` is out of memory.
pub fn placed_part(alloc: Global, round: u32) -> Result<Part, AllocError>
    ensures { IfOk result (λ part. part ≡ spec.placed_part round) }
{
    let cells = vec![in alloc; Cell::Number(round)]?;
    Ok(Part::of(Group::Placed, cells))
}
