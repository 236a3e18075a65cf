//! The office.

mod ending;
mod importing;
mod judging;
mod lists;
mod placed;
mod puts;
mod reads;
mod rounds;

ghost use Rattle.std.specs.Prelude.{◌≡◌, ◌∷◌, ℕ, not, IfOk, IsOk, OnErr, Err, None, []};
ghost use Rattle.office.specs.Common.{State, empty, IsFit, first, plain_refusal, refusal_of, round_tests, Answers, IsDone, AreRowsOf, changes_of};
ghost use Rattle.office.specs.from_rows.View.{drafted};

use crate::from_rows::{PartialOffice, RowsFault, gather};
use office_model::{
    Done, Entries, Import, Placement, Plain, Project, Refusal, Reply, Request, Round, RoundAim,
    Row, Student, Supervisor,
};
use std::alloc::{AllocError, Global};
use std::marker::Model;

/// An office in memory.
#[derive(Drop)]
pub struct Office {
    alloc: Global,
    supervisors: Entries<Supervisor>,
    projects: Entries<Project>,
    students: Entries<Student>,
    rounds: Entries<Round>,
    aims: Entries<RoundAim>,
    placements: Entries<Placement>,
    imports: Entries<Import>,
}

impl Model for Office {
    ghost use Rattle.office_model.specs.State.{State};
    ghost use Rattle.office_model.specs.Fit.{IsFit};
    ghost use Rattle.office.specs.View.{state_of};

    ghost Value = { State };

    ghost view = { state_of };

    ghost invariant = { λ a. IsFit (state_of a) };
}

impl Office {
    /// Creates the empty office. Allocates nothing.
    pub fn new(alloc: Global) -> Self
        ensures empty { result ≡ empty }
    {
        Office::of(alloc, PartialOffice::new(alloc))
    }

    /// Returns the office of these parts.
    fn of(alloc: Global, draft: PartialOffice) -> Self
        requires { IsFit (drafted draft) }
        ensures { result ≡ drafted draft }
    {
        Office {
            alloc,
            supervisors: draft.supervisors,
            projects: draft.projects,
            students: draft.students,
            rounds: draft.rounds,
            aims: draft.aims,
            placements: draft.placements,
            imports: draft.imports,
        }
    }

    /// Returns the office of these rows, which may come in any order. `Unfit` where no office has them. `Memory` where it runs out.
    pub fn from_rows(alloc: Global, rows: Vec<Row>) -> Result<Office, RowsFault>
        ensures rows { IfOk result (λ office. AreRowsOf rows.items office) }
        ensures fit { IfOk result IsFit }
        ensures unfit { result ≡ Err RowsFault.Unfit → (o : State) → IsFit o → AreRowsOf rows.items o → ⊥ }
    {
        Ok(Office::of(alloc, gather(alloc, &rows)?))
    }

    /// Copies the office. Both share the entries until either changes. An `Err` is out of memory.
    pub fn copy(&self) -> Result<Self, AllocError>
        ensures same { IfOk result (λ copy. copy ≡ self.now) }
        ensures fit { IsFit self.now }
    {
        let alloc = self.alloc;
        Ok(Office {
            alloc,
            supervisors: self.supervisors.duplicate(alloc)?,
            projects: self.projects.duplicate(alloc)?,
            students: self.students.duplicate(alloc)?,
            rounds: self.rounds.duplicate(alloc)?,
            aims: self.aims.duplicate(alloc)?,
            placements: self.placements.duplicate(alloc)?,
            imports: self.imports.duplicate(alloc)?,
        })
    }

    /// Returns the supervisors on the roll, by code.
    pub fn supervisors(&self) -> &[Supervisor]
        ensures all { let o = self.now in result.now ≡ o.supervisors }
        ensures fit { IsFit self.now }
    {
        self.supervisors.entries()
    }

    /// Returns the projects on the roll, by code.
    pub fn projects(&self) -> &[Project]
        ensures all { let o = self.now in result.now ≡ o.projects }
        ensures fit { IsFit self.now }
    {
        self.projects.entries()
    }

    /// Returns the students on the roll, by code.
    pub fn students(&self) -> &[Student]
        ensures all { let o = self.now in result.now ≡ o.students }
    {
        self.students.entries()
    }

    /// Every office is fit.
    pub fn fit(&self)
        ensures fit { IsFit self.now }
    {
        let _ = &self.students;
    }

    /// Returns the first refusal that applies to a request, if any; of an import, the first for which its text has not to be read.
    /// Allocates nothing.
    pub fn refusal_of(&self, request: &Request) -> Option<Refusal>
        ensures refusal { result ≡ refusal_of self.now request.now }
    {
        match request {
            Request::Plain(plain) => self.plain_refusal(plain),
            Request::Close | Request::Preview | Request::RoundText => self.open_refusal(),
            Request::Report { round, .. } => self.round_refusal(*round),
            Request::Import { id, kind, bytes } => {
                self.import_refusal(id.as_str(), *kind, bytes.as_slice())
            }
        }
    }

    /// Makes the step of a plain request, or refuses it and stays as it was.
    pub fn apply(&mut self, request: Plain) -> Result<Done, Refusal>
        ensures step { Answers request self.old self.new result }
        ensures changes { IfOk result (λ done. let changes = done.changes in changes.items ≡ changes_of request self.old) }
    {
        if let Some(refusal) = self.plain_refusal(&request) {
            return Err(refusal);
        }
        Ok(self.make(request)?)
    }

    /// Makes the step of a plain request that was judged and is not refused. Out of memory it stays as it was.
    pub fn make(&mut self, request: Plain) -> Result<Done, AllocError>
        requires allowed { plain_refusal self.old request ≡ None }
        ensures done { IfOk result (IsDone request self.old self.new) }
        ensures changes { IfOk result (λ done. let changes = done.changes in changes.items ≡ changes_of request self.old) }
        ensures memory { OnErr result (self.new ≡ self.old) }

        // The answer of a round allocates nothing.
        ensures round { (number : ℕ) → request ≡ Plain.GetRound number → IsOk result }
    {
        match request {
            Plain::PutSupervisor { code, label, quota } => self.put_supervisor(code, label, quota),
            Plain::PutProject {
                code,
                label,
                supervisor,
                quota,
            } => self.put_project(code, label, supervisor, quota),
            Plain::PutStudent { code, label } => self.put_student(code, label),
            Plain::OpenRound { aim } => self.open_round(aim),
            Plain::PutList { student, choices } => self.put_list(student, choices),
            Plain::DropList { student } => self.drop_list(student),
            Plain::ReopenRound => self.reopen_round(),
            Plain::GetSupervisor { code } => Ok(self.answered(self.get_supervisor(code.as_str())?)),
            Plain::GetProject { code } => Ok(self.answered(self.get_project(code.as_str())?)),
            Plain::GetStudent { code } => Ok(self.answered(self.get_student(code.as_str())?)),
            Plain::GetRound { round } => Ok(self.answered(self.get_round(round))),
        }
    }

    /// Returns what a read did: it answers, and changes nothing.
    fn answered(&self, reply: Reply) -> Done
        ensures reply { result.reply ≡ reply }
        ensures changes { let changes = result.changes in changes.items ≡ [] }
    {
        Done {
            reply,
            changes: Vec::new(self.alloc),
        }
    }

    /// Returns the first refusal of a plain request.
    fn plain_refusal(&self, plain: &Plain) -> Option<Refusal>
        ensures { result ≡ plain_refusal self.now plain.now }
    {
        match plain {
            Plain::PutSupervisor { code, label, quota } => {
                self.supervisor_refusal(code.as_str(), label.as_str(), *quota)
            }
            Plain::PutProject {
                code,
                label,
                supervisor,
                quota,
            } => self.project_refusal(code.as_str(), label.as_str(), supervisor.as_str(), *quota),
            Plain::PutStudent { code, label } => {
                self.student_refusal(code.as_str(), label.as_str())
            }
            Plain::OpenRound { .. } => self.opening_refusal(),
            Plain::PutList { student, choices } => {
                self.list_refusal(student.as_str(), choices.as_slice())
            }
            Plain::DropList { student } => self.drop_refusal(student.as_str()),
            Plain::ReopenRound => self.reopening_refusal(),
            Plain::GetSupervisor { code } => {
                unless(
                    self.supervisors.by_code(code.as_str()).is_some(),
                    Refusal::UnknownSupervisor,
                )
            }
            Plain::GetProject { code } => {
                unless(
                    self.projects.by_code(code.as_str()).is_some(),
                    Refusal::UnknownProject,
                )
            }
            Plain::GetStudent { code } => {
                unless(
                    self.students.by_code(code.as_str()).is_some(),
                    Refusal::UnknownStudent,
                )
            }
            Plain::GetRound { round } => self.round_refusal(*round),
        }
    }

    /// Returns why nothing is answered of a round.
    fn round_refusal(&self, round: u32) -> Option<Refusal>
        ensures { result ≡ first (round_tests self.now round) }
    {
        unless(
            self.rounds.by_number(round).is_some(),
            Refusal::UnknownRound,
        )
    }
}

/// Returns a refusal, unless something is known.
fn unless(known: bool, refusal: Refusal) -> Option<Refusal>
    ensures { result ≡ first ((not known, refusal) ∷ []) }
{
    if known { None } else { Some(refusal) }
}
