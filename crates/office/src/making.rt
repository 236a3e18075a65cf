//! New entries, each with its row.

ghost use Rattle.std.specs.Prelude.{◌≡◌, ◌∷◌, ℕ, List, [], IfOk, IsTrue};
ghost use Rattle.office.specs.Common.{put_or_added, project_cells, student_cells, supervisor_cells};
ghost use Rattle.spa.specs.Text.{is_code, is_label};

use office_model::{Change, Project, Row, Student, Supervisor, Table, Text};
use spa::{Code, Label};
use std::alloc::{AllocError, Global};

/// Returns a code of a text that was judged to be one.
pub(crate) fn code_of(text: &str) -> Code
    requires { IsTrue (is_code text.now) }
    ensures { result ≡ text.now }
{
    Code::read(text).unwrap()
}

/// Returns a label of a text that was judged to be one.
fn label_of(alloc: Global, text: &str) -> Result<Label, AllocError>
    requires { IsTrue (is_label text.now) }
    ensures { IfOk result (λ label. label ≡ text.now) }
{
    match Label::read(alloc, text) {
        Ok(label) => Ok(label),
        Err(_) => Err(AllocError),
    }
}

/// Returns a list of this change alone.
pub(crate) fn one_change(alloc: Global, change: Change) -> Result<Vec<Change>, AllocError>
    ensures { IfOk result (λ changes. changes.items ≡ change ∷ []) }
{
    let mut changes = Vec::new(alloc);
    changes.push(change)?;
    Ok(changes)
}

/// Returns the change that puts a row in the place of the one with its key where that is known, and adds it where it is not.
fn put_or_added(known: bool, row: Row) -> Change
    ensures { result ≡ put_or_added known row }
{
    if known {
        Change::Put(row)
    } else {
        Change::Add(row)
    }
}

/// Returns a supervisor, whose code is known or not, and the change that puts or adds the row.
pub(crate) fn new_supervisor(
    alloc: Global,
    code: Text,
    label: Text,
    quota: u32,
    known: bool,
) -> Result<(Supervisor, Vec<Change>), AllocError>
    requires code_form { IsTrue (is_code code) }
    requires label_form { IsTrue (is_label label) }
    ensures made { IfOk result (λ made. made.0 ≡ record { code = code; label = label; quota = quota }) }
    ensures changes { IfOk result (λ made. let changes = made.1 in changes.items ≡ put_or_added known (record { table = Table.Supervisor; cells = supervisor_cells made.0 }) ∷ []) }
{
    let supervisor = Supervisor {
        code: code_of(code.as_str()),
        label: label_of(alloc, label.as_str())?,
        quota,
    };
    let changes = one_change(alloc, put_or_added(known, supervisor.row(alloc)?))?;
    Ok((supervisor, changes))
}

/// Returns a project, whose code is known or not, and the change that puts or adds the row.
pub(crate) fn new_project(
    alloc: Global,
    code: Text,
    label: Text,
    supervisor: Text,
    quota: u32,
    known: bool,
) -> Result<(Project, Vec<Change>), AllocError>
    requires code_form { IsTrue (is_code code) }
    requires label_form { IsTrue (is_label label) }
    requires supervisor_form { IsTrue (is_code supervisor) }
    ensures made { IfOk result (λ made. made.0 ≡ record { code = code; label = label; supervisor = supervisor; quota = quota }) }
    ensures changes { IfOk result (λ made. let changes = made.1 in changes.items ≡ put_or_added known (record { table = Table.Project; cells = project_cells made.0 }) ∷ []) }
{
    let project = Project {
        code: code_of(code.as_str()),
        label: label_of(alloc, label.as_str())?,
        supervisor: code_of(supervisor.as_str()),
        quota,
    };
    let changes = one_change(alloc, put_or_added(known, project.row(alloc)?))?;
    Ok((project, changes))
}

/// Returns a student, whose code is known or not, and the change that puts or adds the row.
pub(crate) fn new_student(
    alloc: Global,
    code: Text,
    label: Text,
    known: bool,
) -> Result<(Student, Vec<Change>), AllocError>
    requires code_form { IsTrue (is_code code) }
    requires label_form { IsTrue (is_label label) }
    ensures made { IfOk result (λ made. made.0 ≡ record { code = code; label = label }) }
    ensures changes { IfOk result (λ made. let changes = made.1 in changes.items ≡ put_or_added known (record { table = Table.Student; cells = student_cells made.0 }) ∷ []) }
{
    let student = Student {
        code: code_of(code.as_str()),
        label: label_of(alloc, label.as_str())?,
    };
    let changes = one_change(alloc, put_or_added(known, student.row(alloc)?))?;
    Ok((student, changes))
}
