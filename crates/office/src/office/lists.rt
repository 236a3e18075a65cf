//! Requests that change a list.

ghost use Rattle.std.specs.Prelude.{◌≡◌, None, IfOk, OnErr, IsTrue};
ghost use Rattle.office.specs.Common.{AllByRecursion, has_project, plain_refusal, IsDone, changes_of};
ghost use Rattle.office_model.specs.declared.request.Plain.TheVariants as plain;

use super::Office;
use crate::changes::list_changes;
use crate::making::one_change;
use office_model::{Change, Choices, Done, Listed, Reply, Text, Texts, list_part};
use spa::Code;
use std::alloc::AllocError;

impl Office {
    /// Returns the codes of projects on the roll.
    fn codes_of(&self, texts: &[Text]) -> Result<Vec<Code>, AllocError>
        requires { AllByRecursion (λ p. IsTrue (has_project self.now p)) texts.now }
        ensures { IfOk result (λ codes. codes.items ≡ texts.now) }
    {
        let mut codes = Vec::new(self.alloc);
        for text in texts {
            let project = self.projects.by_code(text.as_str()).unwrap();
            codes.push(project.code.copy())?;
        }
        Ok(codes)
    }

    /// Makes a student's list in the open round this one.
    pub(crate) fn put_list(&mut self, student: Text, choices: Texts) -> Result<Done, AllocError>
        requires allowed { plain_refusal self.old (plain.PutList student choices) ≡ None }
        ensures ok { IfOk result (IsDone (plain.PutList student choices) self.old self.new) }
        ensures changes { IfOk result (λ done. let changes = done.changes in changes.items ≡ changes_of (plain.PutList student choices) self.old) }
        ensures err { OnErr result (self.new ≡ self.old) }
    {
        let round = self.last_round();
        let codes = self.codes_of(choices.as_slice())?;
        let has_list = self.list_of(round, student.as_str()).is_some();
        let changes = list_changes(self.alloc, round, student.as_str(), has_list, &codes)?;
        let listed = Listed {
            student: self.students.by_code(student.as_str()).unwrap().code.copy(),
            choices: Choices::new(self.alloc, codes)?,
        };
        let mut last = self.last()?;
        last.lists.put(listed)?;
        self.rounds.put(last)?;
        Ok(Done {
            reply: Reply::Done,
            changes,
        })
    }

    /// Takes a student's list out of the open round.
    pub(crate) fn drop_list(&mut self, student: Text) -> Result<Done, AllocError>
        requires allowed { plain_refusal self.old (plain.DropList student) ≡ None }
        ensures ok { IfOk result (IsDone (plain.DropList student) self.old self.new) }
        ensures changes { IfOk result (λ done. let changes = done.changes in changes.items ≡ changes_of (plain.DropList student) self.old) }
        ensures err { OnErr result (self.new ≡ self.old) }
    {
        let round = self.last_round();
        let mut last = self.last()?;
        last.lists.take_out(0, student.as_str())?;
        let part = list_part(self.alloc, round, student.as_str())?;
        let changes = one_change(self.alloc, Change::Remove(part))?;
        self.rounds.put(last)?;
        Ok(Done {
            reply: Reply::Done,
            changes,
        })
    }
}
