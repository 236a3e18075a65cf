//! Requests that put an entry.

ghost use Rattle.std.specs.Prelude.{◌≡◌, None, IfOk, OnErr};
ghost use Rattle.office.specs.Common.{plain_refusal, IsDone, changes_of};
ghost use Rattle.office_model.specs.declared.request.Plain.TheVariants as plain;

use super::Office;
use crate::making::{new_project, new_student, new_supervisor};
use office_model::{Done, Reply, Text};
use std::alloc::AllocError;

impl Office {
    /// Puts a supervisor on the roll.
    pub(crate) fn put_supervisor(
        &mut self,
        code: Text,
        label: Text,
        quota: u32,
    ) -> Result<Done, AllocError>
        requires allowed { plain_refusal self.old (plain.PutSupervisor code label quota) ≡ None }
        ensures ok { IfOk result (IsDone (plain.PutSupervisor code label quota) self.old self.new) }
        ensures changes { IfOk result (λ done. let changes = done.changes in changes.items ≡ changes_of (plain.PutSupervisor code label quota) self.old) }
        ensures err { OnErr result (self.new ≡ self.old) }
    {
        let known = self.supervisors.by_code(code.as_str()).is_some();
        let (supervisor, changes) = new_supervisor(self.alloc, code, label, quota, known)?;
        self.supervisors.put(supervisor)?;
        Ok(Done {
            reply: Reply::Done,
            changes,
        })
    }

    /// Puts a project on the roll.
    pub(crate) fn put_project(
        &mut self,
        code: Text,
        label: Text,
        supervisor: Text,
        quota: u32,
    ) -> Result<Done, AllocError>
        requires allowed { plain_refusal self.old (plain.PutProject code label supervisor quota) ≡ None }
        ensures ok { IfOk result (IsDone (plain.PutProject code label supervisor quota) self.old self.new) }
        ensures changes { IfOk result (λ done. let changes = done.changes in changes.items ≡ changes_of (plain.PutProject code label supervisor quota) self.old) }
        ensures err { OnErr result (self.new ≡ self.old) }
    {
        let known = self.projects.by_code(code.as_str()).is_some();
        let (project, changes) = new_project(self.alloc, code, label, supervisor, quota, known)?;
        self.projects.put(project)?;
        Ok(Done {
            reply: Reply::Done,
            changes,
        })
    }

    /// Puts a student on the roll.
    pub(crate) fn put_student(&mut self, code: Text, label: Text) -> Result<Done, AllocError>
        requires allowed { plain_refusal self.old (plain.PutStudent code label) ≡ None }
        ensures ok { IfOk result (IsDone (plain.PutStudent code label) self.old self.new) }
        ensures changes { IfOk result (λ done. let changes = done.changes in changes.items ≡ changes_of (plain.PutStudent code label) self.old) }
        ensures err { OnErr result (self.new ≡ self.old) }
    {
        let known = self.students.by_code(code.as_str()).is_some();
        let (student, changes) = new_student(self.alloc, code, label, known)?;
        self.students.put(student)?;
        Ok(Done {
            reply: Reply::Done,
            changes,
        })
    }
}
