//! What rows hold.

ghost use Rattle.std.specs.Prelude.{◌≡◌, ◌+◌, ◌==◌, ◌++◌, ◌∷◌, [], true, false, length, IfOk, OnOk, Some, None, Err};
ghost use Rattle.office.specs.from_rows.Common.{has, put, empty, round_of};
ghost use Rattle.office.specs.from_rows.View.{drafted};
ghost use Rattle.office.specs.from_rows.Inside.Gathering.{after_cells, after_row, choices_among, with_choice, with_next};

use crate::from_rows::cells::{aim_of, flag_in, kind_in};
use crate::from_rows::fault::RowsFault;
use office_model::{
    Cell, Choices, Entries, Entry, Import, Listed, MAX_IMPORT_BYTES, Placement, Project, Round,
    RoundAim, Row, Student, Supervisor, Table,
};
use spa::{Code, Label, MAX_QUOTA, RANKS};
use std::alloc::{AllocError, Global};

/// The parts of an office.
#[derive(Drop)]
pub struct PartialOffice {
    /// The supervisors, by code.
    pub supervisors: Entries<Supervisor>,
    /// The projects, by code.
    pub projects: Entries<Project>,
    /// The students, by code.
    pub students: Entries<Student>,
    /// The rounds, by number.
    pub rounds: Entries<Round>,
    /// The aims of the rounds, by number.
    pub aims: Entries<RoundAim>,
    /// The placements, by student.
    pub placements: Entries<Placement>,
    /// The imports that were made, by id.
    pub imports: Entries<Import>,
}

/// Returns these projects, and one more after them.
fn one_more(alloc: Global, before: &[Code], last: Code) -> Result<Vec<Code>, AllocError>
    ensures { IfOk result (λ codes. codes.items ≡ before.now ++ last ∷ []) }
{
    let mut codes = Vec::with_capacity(alloc, RANKS)?;
    for code in before {
        codes.push(code.copy())?;
    }
    codes.push(last)?;
    Ok(codes)
}

/// Returns a student's choices among these lists, with one more at this place.
fn next_choices(
    alloc: Global,
    lists: &Entries<Listed>,
    student: &Code,
    place: u32,
    project: Code,
) -> Result<Vec<Code>, RowsFault>
    ensures next { IfOk result (λ codes. codes.items ≡ choices_among student.now lists.now ++ project ∷ []) }
    ensures place { IfOk result (λ _. length (choices_among student.now lists.now) + 1 ≡ place) }
    ensures unfit { result ≡ Err RowsFault.Unfit → (length (choices_among student.now lists.now) + 1 == place) ≡ false }
{
    let before = match lists.by_code(student.as_str()) {
        Some(listed) => listed.choices.as_slice(),
        None => &[],
    };
    if place < 1 || before.len() != (place - 1) as usize {
        return Err(RowsFault::Unfit);
    }
    Ok(one_more(alloc, before, project)?)
}

/// Adds a choice to a student's list, as the next of it.
fn add_choice(
    alloc: Global,
    lists: &mut Entries<Listed>,
    student: Code,
    place: u32,
    project: Code,
) -> Result<(), RowsFault>
    ensures added { OnOk result (lists.new ≡ with_choice student project lists.old) }
    ensures place { IfOk result (λ _. length (choices_among student lists.old) + 1 ≡ place) }
    ensures unfit { result ≡ Err RowsFault.Unfit → (length (choices_among student lists.old) + 1 == place) ≡ false }
{
    let codes = next_choices(alloc, lists, &student, place, project)?;
    let choices = Choices::new(alloc, codes)?;
    lists.put(Listed { student, choices })?;
    Ok(())
}

/// Puts an entry of a new key among others.
fn put_new<E: Entry + Drop>(entries: &mut Entries<E>, entry: E) -> Result<(), RowsFault>
    ensures new { OnOk result (has E.key (E.key entry) entries.old ≡ false) }
    ensures put { OnOk result (entries.new ≡ put E.key entry entries.old) }
    ensures unfit { result ≡ Err RowsFault.Unfit → has E.key (E.key entry) entries.old ≡ true }
{
    let (round, code) = entry.key();
    if entries.find(round, code).is_some() {
        return Err(RowsFault::Unfit);
    }
    entries.put(entry)?;
    Ok(())
}

impl PartialOffice {
    /// Creates an empty draft. Allocates nothing.
    pub fn new(alloc: Global) -> Self
        ensures { drafted result ≡ empty }
    {
        PartialOffice {
            supervisors: Entries::new(alloc),
            projects: Entries::new(alloc),
            students: Entries::new(alloc),
            rounds: Entries::new(alloc),
            aims: Entries::new(alloc),
            placements: Entries::new(alloc),
            imports: Entries::new(alloc),
        }
    }

    /// Takes in a supervisor's row.
    fn take_supervisor(&mut self, alloc: Global, cells: &[Cell]) -> Result<(), RowsFault>
        ensures taken { OnOk result (after_cells (drafted self.old) Table.Supervisor cells.now ≡ Some (drafted self.new)) }
        ensures unfit { result ≡ Err RowsFault.Unfit → after_cells (drafted self.old) Table.Supervisor cells.now ≡ None }
    {
        let [Cell::Text(code), Cell::Text(label), Cell::Number(quota)] = cells else {
            return Err(RowsFault::Unfit);
        };
        let code = Code::read(code.as_str())?;
        let label = Label::read(alloc, label.as_str())?;
        if *quota > MAX_QUOTA {
            return Err(RowsFault::Unfit);
        }
        let quota = *quota;
        put_new(&mut self.supervisors, Supervisor { code, label, quota })
    }

    /// Takes in a project's row.
    fn take_project(&mut self, alloc: Global, cells: &[Cell]) -> Result<(), RowsFault>
        ensures taken { OnOk result (after_cells (drafted self.old) Table.Project cells.now ≡ Some (drafted self.new)) }
        ensures unfit { result ≡ Err RowsFault.Unfit → after_cells (drafted self.old) Table.Project cells.now ≡ None }
    {
        let [
            Cell::Text(code),
            Cell::Text(label),
            Cell::Text(supervisor),
            Cell::Number(quota),
        ] = cells
        else {
            return Err(RowsFault::Unfit);
        };
        let code = Code::read(code.as_str())?;
        let label = Label::read(alloc, label.as_str())?;
        let supervisor = Code::read(supervisor.as_str())?;
        if *quota > MAX_QUOTA {
            return Err(RowsFault::Unfit);
        }
        let quota = *quota;
        let project = Project {
            code,
            label,
            supervisor,
            quota,
        };
        put_new(&mut self.projects, project)
    }

    /// Takes in a student's row.
    fn take_student(&mut self, alloc: Global, cells: &[Cell]) -> Result<(), RowsFault>
        ensures taken { OnOk result (after_cells (drafted self.old) Table.Student cells.now ≡ Some (drafted self.new)) }
        ensures unfit { result ≡ Err RowsFault.Unfit → after_cells (drafted self.old) Table.Student cells.now ≡ None }
    {
        let [Cell::Text(code), Cell::Text(label)] = cells else {
            return Err(RowsFault::Unfit);
        };
        let code = Code::read(code.as_str())?;
        let label = Label::read(alloc, label.as_str())?;
        put_new(&mut self.students, Student { code, label })
    }

    /// Takes in a round's row. Its lists come later.
    fn take_round(&mut self, alloc: Global, cells: &[Cell]) -> Result<(), RowsFault>
        ensures taken { OnOk result (after_cells (drafted self.old) Table.Round cells.now ≡ Some (drafted self.new)) }
        ensures unfit { result ≡ Err RowsFault.Unfit → after_cells (drafted self.old) Table.Round cells.now ≡ None }
    {
        let [Cell::Number(number), Cell::Number(is_open)] = cells else {
            return Err(RowsFault::Unfit);
        };
        let Some(is_open) = flag_in(*is_open) else {
            return Err(RowsFault::Unfit);
        };
        let number = *number;
        let lists = Entries::new(alloc);
        let round = Round {
            number,
            is_open,
            lists,
        };
        put_new(&mut self.rounds, round)
    }

    /// Takes in a student's choice in a round, a project at a place, as the next of the list.
    fn choose(
        &mut self,
        alloc: Global,
        round: u32,
        student: Code,
        choice: (u32, Code),
    ) -> Result<(), RowsFault>
        ensures taken { let o = drafted self.old in OnOk result (with_next o student choice.0 choice.1 (round_of o round) ≡ Some (drafted self.new)) }
        ensures unfit { let o = drafted self.old in result ≡ Err RowsFault.Unfit → with_next o student choice.0 choice.1 (round_of o round) ≡ None }
    {
        let (place, project) = choice;
        let Some(mut held) = self.rounds.remove(round, "")? else {
            return Err(RowsFault::Unfit);
        };
        add_choice(alloc, &mut held.lists, student, place, project)?;
        self.rounds.put(held)?;
        Ok(())
    }

    /// Takes in the row of a choice, as the next of its list.
    fn take_choice(&mut self, alloc: Global, cells: &[Cell]) -> Result<(), RowsFault>
        ensures taken { OnOk result (after_cells (drafted self.old) Table.Choice cells.now ≡ Some (drafted self.new)) }
        ensures unfit { result ≡ Err RowsFault.Unfit → after_cells (drafted self.old) Table.Choice cells.now ≡ None }
    {
        let [
            Cell::Number(round),
            Cell::Text(student),
            Cell::Number(place),
            Cell::Text(project),
        ] = cells
        else {
            return Err(RowsFault::Unfit);
        };
        let student = Code::read(student.as_str())?;
        let project = Code::read(project.as_str())?;
        self.choose(alloc, *round, student, (*place, project))
    }

    /// Takes in a placement's row.
    fn take_placement(&mut self, cells: &[Cell]) -> Result<(), RowsFault>
        ensures taken { OnOk result (after_cells (drafted self.old) Table.Placement cells.now ≡ Some (drafted self.new)) }
        ensures unfit { result ≡ Err RowsFault.Unfit → after_cells (drafted self.old) Table.Placement cells.now ≡ None }
    {
        let [
            Cell::Text(student),
            Cell::Number(round),
            Cell::Text(project),
            Cell::Number(rank),
        ] = cells
        else {
            return Err(RowsFault::Unfit);
        };
        let student = Code::read(student.as_str())?;
        let project = Code::read(project.as_str())?;
        let (round, rank) = (*round, *rank);
        let placement = Placement {
            student,
            round,
            project,
            rank,
        };
        put_new(&mut self.placements, placement)
    }

    /// Takes in the row of a round's aim.
    fn take_aim(&mut self, cells: &[Cell]) -> Result<(), RowsFault>
        ensures taken { OnOk result (after_cells (drafted self.old) Table.RoundAim cells.now ≡ Some (drafted self.new)) }
        ensures unfit { result ≡ Err RowsFault.Unfit → after_cells (drafted self.old) Table.RoundAim cells.now ≡ None }
    {
        let [Cell::Number(round), Cell::Number(generous)] = cells else {
            return Err(RowsFault::Unfit);
        };
        let Some(generous) = flag_in(*generous) else {
            return Err(RowsFault::Unfit);
        };
        let round = *round;
        let aim = aim_of(generous);
        put_new(&mut self.aims, RoundAim { round, aim })
    }

    /// Takes in an import's row. Its text is shared with the row.
    fn take_import(&mut self, cells: &[Cell]) -> Result<(), RowsFault>
        ensures taken { OnOk result (after_cells (drafted self.old) Table.Import cells.now ≡ Some (drafted self.new)) }
        ensures unfit { result ≡ Err RowsFault.Unfit → after_cells (drafted self.old) Table.Import cells.now ≡ None }
    {
        let [
            Cell::Text(id),
            Cell::Text(word),
            Cell::Bytes(bytes),
            Cell::Number(rows),
        ] = cells
        else {
            return Err(RowsFault::Unfit);
        };
        let id = Code::read(id.as_str())?;
        let Some(kind) = kind_in(word.as_str()) else {
            return Err(RowsFault::Unfit);
        };
        if bytes.as_slice().len() > MAX_IMPORT_BYTES || *rows as usize > MAX_IMPORT_BYTES {
            return Err(RowsFault::Unfit);
        }
        let bytes = bytes.copy()?;
        let rows = *rows;
        let import = Import {
            id,
            kind,
            bytes,
            rows,
        };
        put_new(&mut self.imports, import)
    }

    /// Takes in a row.
    pub(crate) fn add_row(&mut self, alloc: Global, row: &Row) -> Result<(), RowsFault>
        ensures taken { OnOk result (after_row (drafted self.old) row.now ≡ Some (drafted self.new)) }
        ensures unfit { result ≡ Err RowsFault.Unfit → after_row (drafted self.old) row.now ≡ None }
    {
        let cells = row.cells();
        match row.table() {
            Table::Supervisor => self.take_supervisor(alloc, cells),
            Table::Project => self.take_project(alloc, cells),
            Table::Student => self.take_student(alloc, cells),
            Table::Round => self.take_round(alloc, cells),
            Table::RoundAim => self.take_aim(cells),
            Table::Choice => self.take_choice(alloc, cells),
            Table::Placement => self.take_placement(cells),
            Table::Import => self.take_import(cells),
            _ => Err(RowsFault::Unfit),
        }
    }
}
