//! Requests that read an entry.

ghost use Rattle.std.specs.Prelude.{◌≡◌, IfOk, Some, None};
ghost use Rattle.office.specs.Common.{open_choices, placement_of, plain_refusal, plain_reply};
ghost use Rattle.office_model.specs.declared.request.Plain.TheVariants as plain;

use super::Office;
use super::placed::{placed_by, ranked};
use office_model::{Choices, Placement, Reply};
use std::alloc::AllocError;

impl Office {
    /// Returns a supervisor, as answered.
    pub(crate) fn get_supervisor(&self, code: &str) -> Result<Reply, AllocError>
        requires allowed { plain_refusal self.now (plain.GetSupervisor code.now) ≡ None }
        ensures reply { IfOk result (λ reply. Some reply ≡ plain_reply (plain.GetSupervisor code.now) self.now) }
    {
        let supervisor = self.supervisors.by_code(code).unwrap();
        Ok(Reply::Supervisor {
            name: supervisor.label.copy()?,
            placed: self.placed_with_supervisor(code),
            quota: supervisor.quota,
        })
    }

    /// Returns a project, as answered.
    pub(crate) fn get_project(&self, code: &str) -> Result<Reply, AllocError>
        requires allowed { plain_refusal self.now (plain.GetProject code.now) ≡ None }
        ensures reply { IfOk result (λ reply. Some reply ≡ plain_reply (plain.GetProject code.now) self.now) }
    {
        let project = self.projects.by_code(code).unwrap();
        Ok(Reply::Project {
            name: project.label.copy()?,
            placed: self.placed_in_project(code),
            quota: project.quota,
            supervisor: project.supervisor.copy(),
        })
    }

    /// Returns the projects that a student lists in the open round, where there are such.
    fn open_choices(&self, student: &str) -> Result<Option<Choices>, AllocError>
        ensures { IfOk result (λ choices. choices ≡ open_choices self.now student.now) }
    {
        if !self.round_is_open() {
            return Ok(None);
        }
        match self.list_of(self.last_round(), student) {
            Some(list) => Ok(Some(list.choices.copy()?)),
            None => Ok(None),
        }
    }

    /// Returns where a student is placed.
    fn placement_of(&self, student: &str) -> Option<Placement>
        ensures { result ≡ placement_of self.now student.now }
    {
        Some(self.placements.by_code(student)?.copy())
    }

    /// Returns a student, as answered.
    pub(crate) fn get_student(&self, code: &str) -> Result<Reply, AllocError>
        requires allowed { plain_refusal self.now (plain.GetStudent code.now) ≡ None }
        ensures reply { IfOk result (λ reply. Some reply ≡ plain_reply (plain.GetStudent code.now) self.now) }
    {
        let student = self.students.by_code(code).unwrap();
        Ok(Reply::Student {
            name: student.label.copy()?,
            list: self.open_choices(code)?,
            placed: self.placement_of(code),
        })
    }

    /// Returns a round, as answered.
    pub(crate) fn get_round(&self, round: u32) -> Reply
        requires allowed { plain_refusal self.now (plain.GetRound round) ≡ None }
        ensures reply { Some result ≡ plain_reply (plain.GetRound round) self.now }
    {
        let placements = self.placements.entries();
        let found = self.rounds.by_number(round).unwrap();
        Reply::Round {
            number: round,
            aim: self.aim_of(round),
            is_open: found.is_open,
            placed: placed_by(placements, round) as u32,
            profile: ranked(placements, round),
            students: found.lists.entries().len() as u32,
        }
    }
}
