//! Imports.

ghost use Rattle.std.specs.Prelude.{◌≡◌};
ghost use Rattle.office_model.specs.Kinds.{word_of};

use schema::Bytes;
use spa::Code;

/// What the records of an import are.
#[derive(Clone, Copy)]
pub enum ImportKind {
    /// Supervisors: code, name and quota.
    Supervisors,
    /// Projects: code, name, supervisor and quota.
    Projects,
    /// Students: code and name.
    Students,
    /// Students' lists in the open round: student, and the projects, first choice first.
    Lists,
}

impl ImportKind {
    /// Returns the word by which paths, commands and tables name the kind.
    pub fn word(self) -> &'static str
        ensures { result.now ≡ word_of self }
    {
        match self {
            ImportKind::Supervisors => "supervisors",
            ImportKind::Projects => "projects",
            ImportKind::Students => "students",
            ImportKind::Lists => "lists",
        }
    }
}

/// An import that was made.
#[derive(Drop)]
pub struct Import {
    /// The id under which it was sent, a code.
    pub id: Code,
    /// What its records are.
    pub kind: ImportKind,
    /// Its text, at most 65,536 bytes.
    pub bytes: Bytes,
    /// How many records it has after its header, at most 65,536.
    pub rows: u32,
}
