//! The entries of rounds.

ghost use Rattle.std.specs.Prelude.{◌≡◌};

use crate::sorted::Entries;
use schema::Shared;
use spa::{Aim, Code};

/// The projects that a student lists, by their codes, first choice first.
pub type Choices = Shared<Code>;

/// A student's list in a round.
#[derive(Drop)]
pub struct Listed {
    /// The student's code.
    pub student: Code,
    /// The projects, first choice first.
    pub choices: Choices,
}

/// A round.
#[derive(Drop)]
pub struct Round {
    /// Its number, from 1.
    pub number: u32,
    /// Whether lists may be put.
    pub is_open: bool,
    /// Its lists, by the students' codes.
    pub lists: Entries<Listed>,
}

/// The aim of a round: which of the largest matchings is best when it closes.
#[derive(Drop)]
pub struct RoundAim {
    /// The round's number.
    pub round: u32,
    /// Its aim.
    pub aim: Aim,
}

/// Where a round placed a student.
#[derive(Drop)]
pub struct Placement {
    /// The student's code.
    pub student: Code,
    /// The round's number.
    pub round: u32,
    /// The project's code.
    pub project: Code,
    /// The project's rank in the student's list, from 1.
    pub rank: u32,
}

impl Placement {
    /// Returns the same placement. Allocates nothing.
    pub fn copy(&self) -> Self
        ensures { result ≡ self.now }
    {
        Placement {
            student: self.student.copy(),
            round: self.round,
            project: self.project.copy(),
            rank: self.rank,
        }
    }
}
