//! Requests, and what comes of them.

ghost use Rattle.std.specs.Prelude.{◌≡◌};
ghost use Rattle.office_model.specs.Reads.{is_read};

use crate::import::ImportKind;
use crate::report::ReportKind;
use crate::rounds::{Choices, Placement};
use schema::{Bytes, Change, Text, Texts};
use spa::{Aim, Code, Label, RANKS};

/// A request that needs nothing but the office. Texts and quotas come as they were sent, for the office
/// to judge.
#[derive(Drop)]
pub enum Plain {
    /// Makes the supervisor's entry this one.
    PutSupervisor {
        code: Text,
        label: Text,
        quota: u32,
    },
    /// Makes the project's entry this one.
    PutProject {
        code: Text,
        label: Text,
        supervisor: Text,
        quota: u32,
    },
    /// Makes the student's entry this one.
    PutStudent {
        code: Text,
        label: Text,
    },
    /// Opens the next round, with this aim.
    OpenRound {
        aim: Aim,
    },
    /// Makes the student's list in the open round this one.
    PutList {
        student: Text,
        choices: Texts,
    },
    /// Takes the student's list out of the open round.
    DropList {
        student: Text,
    },
    /// Opens the last round again: its placements go, its lists stay.
    ReopenRound,
    /// Reads a supervisor's entry.
    GetSupervisor {
        code: Text,
    },
    /// Reads a project's entry.
    GetProject {
        code: Text,
    },
    /// Reads a student's entry.
    GetStudent {
        code: Text,
    },
    /// Reads a round.
    GetRound {
        round: u32,
    },
}

impl Plain {
    /// Whether the request only reads: it changes no office.
    pub fn is_read(&self) -> bool
        ensures read { result ≡ is_read self.now }
    {
        match self {
            Plain::PutSupervisor { .. }
            | Plain::PutProject { .. }
            | Plain::PutStudent { .. }
            | Plain::OpenRound { .. }
            | Plain::PutList { .. }
            | Plain::DropList { .. }
            | Plain::ReopenRound => false,
            Plain::GetSupervisor { .. }
            | Plain::GetProject { .. }
            | Plain::GetStudent { .. }
            | Plain::GetRound { .. } => true,
        }
    }
}

/// A request.
#[derive(Drop)]
pub enum Request {
    /// One that needs nothing but the office.
    Plain(Plain),
    /// Closes the open round with a matching of its instance that is best by its aim.
    Close,
    /// What closing the open round now would answer.
    Preview,
    /// The instance of the open round, as a round text.
    RoundText,
    /// A report of a round, as a text.
    Report {
        kind: ReportKind,
        round: u32,
    },
    /// Makes the plain requests of an import text's records, one after another, all of them or none, and keeps the import.
    /// The same import once more changes nothing.
    Import {
        id: Text,
        kind: ImportKind,
        bytes: Bytes,
    },
}

/// The answer to a request that was done.
#[derive(Drop)]
pub enum Reply {
    /// A change was made.
    Done,
    /// A supervisor: name, number placed, quota.
    Supervisor {
        name: Label,
        placed: u32,
        quota: u32,
    },
    /// A project: name, number placed, quota, and the supervisor who offers it.
    Project {
        name: Label,
        placed: u32,
        quota: u32,
        supervisor: Code,
    },
    /// A student: name, the list in the open round, and where a round placed the student.
    Student {
        name: Label,
        list: Option<Choices>,
        placed: Option<Placement>,
    },
    /// The round that is open now.
    Opened {
        round: u32,
    },
    /// A round: its aim, whether it is open, how many students it placed, how many of them at rank 1 and so on, and how many
    /// lists it has.
    Round {
        number: u32,
        aim: Aim,
        is_open: bool,
        placed: u32,
        profile: [u32; RANKS],
        students: u32,
    },
    /// A closed round: how many students it placed, and how many of them at rank 1 and so on.
    Closed {
        round: u32,
        size: u32,
        profile: [u32; RANKS],
    },
    /// The same, of a round that would be closed now.
    Preview {
        size: u32,
        profile: [u32; RANKS],
    },
    /// A text.
    Text(Text),
    /// An import: how many rows it has.
    Rows(u32),
}

/// What a request made: its answer, and what it changes in the tables.
#[derive(Drop)]
pub struct Done {
    /// The answer.
    pub reply: Reply,
    /// The changes of the tables, the first of them first.
    pub changes: Vec<Change>,
}
