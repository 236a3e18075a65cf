//! Which refusal a request gets.

ghost use Rattle.std.specs.Prelude.{◌≡◌, [], Some, None};
ghost use Rattle.office.specs.Common.{list_any, first, plain_refusal, is_moved, choice_tests, open_tests, opening_tests};
ghost use Rattle.std.specs.Str.{bytes_eq};
ghost use Rattle.office_model.specs.declared.request.Plain.TheVariants as plain;

use super::Office;
use office_model::{MAX_ROUNDS, Refusal, Text};
use spa::{
    MAX_PROJECTS, MAX_QUOTA, MAX_STUDENTS, MAX_SUPERVISORS, RANKS, is_code_text, is_label_text,
};

impl Office {
    /// Returns why a supervisor can't be put.
    pub(crate) fn supervisor_refusal(&self, code: &str, label: &str, quota: u32) -> Option<Refusal>
        ensures { result ≡ plain_refusal self.now (plain.PutSupervisor code.now label.now quota) }
    {
        if !is_code_text(code) {
            return Some(Refusal::Code);
        }
        if !is_label_text(label) {
            return Some(Refusal::Label);
        }
        if quota > MAX_QUOTA {
            return Some(Refusal::Quota);
        }
        if quota < self.placed_with_supervisor(code) {
            return Some(Refusal::BelowPlaced);
        }
        if self.supervisors.by_code(code).is_none()
            && self.supervisors.entries().len() >= MAX_SUPERVISORS
        {
            return Some(Refusal::RollFull);
        }
        None
    }

    /// Returns why a project can't be put.
    pub(crate) fn project_refusal(
        &self,
        code: &str,
        label: &str,
        supervisor: &str,
        quota: u32,
    ) -> Option<Refusal>
        ensures { result ≡ plain_refusal self.now (plain.PutProject code.now label.now supervisor.now quota) }
    {
        if !is_code_text(code) {
            return Some(Refusal::Code);
        }
        if !is_code_text(supervisor) {
            return Some(Refusal::Code);
        }
        if !is_label_text(label) {
            return Some(Refusal::Label);
        }
        if quota > MAX_QUOTA {
            return Some(Refusal::Quota);
        }
        if self.supervisors.by_code(supervisor).is_none() {
            return Some(Refusal::UnknownSupervisor);
        }
        if self.is_moved(code, supervisor) {
            return Some(Refusal::SupervisorFixed);
        }
        if quota < self.placed_in_project(code) {
            return Some(Refusal::BelowPlaced);
        }
        if self.projects.by_code(code).is_none() && self.projects.entries().len() >= MAX_PROJECTS {
            return Some(Refusal::RollFull);
        }
        None
    }

    /// Returns why a student can't be put.
    pub(crate) fn student_refusal(&self, code: &str, label: &str) -> Option<Refusal>
        ensures { result ≡ plain_refusal self.now (plain.PutStudent code.now label.now) }
    {
        if !is_code_text(code) {
            return Some(Refusal::Code);
        }
        if !is_label_text(label) {
            return Some(Refusal::Label);
        }
        if self.students.by_code(code).is_none() && self.students.entries().len() >= MAX_STUDENTS {
            return Some(Refusal::RollFull);
        }
        None
    }

    /// Whether a known project would go to another supervisor.
    fn is_moved(&self, code: &str, supervisor: &str) -> bool
        ensures { result ≡ is_moved self.now code.now supervisor.now }
    {
        match self.projects.by_code(code) {
            Some(project) => supervisor != project.supervisor.as_str(),
            None => false,
        }
    }

    /// Returns why a round can't be opened.
    pub(crate) fn opening_refusal(&self) -> Option<Refusal>
        ensures { result ≡ first (opening_tests self.now) }
    {
        if self.round_is_open() {
            return Some(Refusal::RoundIsOpen);
        }
        if self.last_round() >= MAX_ROUNDS {
            return Some(Refusal::RoundsFull);
        }
        None
    }

    /// Returns why the last round can't be reopened.
    pub(crate) fn reopening_refusal(&self) -> Option<Refusal>
        ensures { result ≡ plain_refusal self.now plain.ReopenRound }
    {
        if self.round_is_open() {
            return Some(Refusal::RoundIsOpen);
        }
        if self.last_round() == 0 {
            return Some(Refusal::NoRoundClosed);
        }
        None
    }

    /// Returns why nothing can be asked of the open round.
    pub(crate) fn open_refusal(&self) -> Option<Refusal>
        ensures { result ≡ first (open_tests self.now) }
    {
        if !self.round_is_open() {
            return Some(Refusal::NoRoundOpen);
        }
        None
    }

    /// Returns why a list can't be put.
    pub(crate) fn list_refusal(&self, student: &str, choices: &[Text]) -> Option<Refusal>
        ensures { result ≡ plain_refusal self.now (plain.PutList student.now choices.now) }
    {
        if !self.round_is_open() {
            return Some(Refusal::NoRoundOpen);
        }
        if self.students.by_code(student).is_none() {
            return Some(Refusal::UnknownStudent);
        }
        if self.placements.by_code(student).is_some() {
            return Some(Refusal::AlreadyPlaced);
        }
        if choices.is_empty() || choices.len() > RANKS {
            return Some(Refusal::ListLength);
        }
        self.choice_refusal(choices)
    }

    /// Returns why choices can't be put: the first of them that is unknown or repeated.
    fn choice_refusal(&self, choices: &[Text]) -> Option<Refusal>
        ensures { result ≡ first (choice_tests self.now [] choices.now) }
    {
        for place in 0..choices.len() {
            let code = choices[place].as_str();
            if self.projects.by_code(code).is_none() {
                return Some(Refusal::UnknownProject);
            }
            if stands_in(&choices[..place], code) {
                return Some(Refusal::RepeatedProject);
            }
        }
        None
    }

    /// Returns why a list can't be dropped.
    pub(crate) fn drop_refusal(&self, student: &str) -> Option<Refusal>
        ensures { result ≡ plain_refusal self.now (plain.DropList student.now) }
    {
        if !self.round_is_open() {
            return Some(Refusal::NoRoundOpen);
        }
        if self.students.by_code(student).is_none() {
            return Some(Refusal::UnknownStudent);
        }
        if self.list_of(self.last_round(), student).is_none() {
            return Some(Refusal::NoList);
        }
        None
    }
}

/// Whether a text stands among texts.
fn stands_in(texts: &[Text], text: &str) -> bool
    ensures { result ≡ list_any (bytes_eq text.now) texts.now }
{
    for other in texts {
        if text == other.as_str() {
            return true;
        }
    }
    false
}
