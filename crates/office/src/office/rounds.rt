//! Rounds, with their lists, and requests that open one.

ghost use Rattle.std.specs.Prelude.{◌≡◌, true, is_some, option_copied, Some, None, IfOk, OnErr};
ghost use Rattle.office.specs.Common.{IsFit, aim_key, aim_of, last_round, list_of, lists_of, round_is_open, round_of, plain_refusal, IsDone, changes_of};
ghost use Rattle.office_model.specs.Roll.{put};
ghost use Rattle.office_model.specs.declared.request.Plain.TheVariants as plain;

use super::Office;
use crate::changes::{kept_placements, opening_changes, reopening_changes};
use office_model::{Done, Entries, Entry, Listed, Reply, Round, RoundAim};
use spa::Aim;
use std::alloc::AllocError;

impl Office {
    /// Returns the rounds, by number.
    pub fn rounds(&self) -> &[Round]
        ensures all { let o = self.now in result.now ≡ o.rounds }
        ensures fit { IsFit self.now }
    {
        self.rounds.entries()
    }

    /// Returns the lists of a round, by the students' codes; none where there is no such round.
    pub fn lists(&self, round: u32) -> &[Listed]
        ensures all { result.now ≡ lists_of self.now round }
    {
        match self.rounds.by_number(round) {
            Some(round) => round.lists.entries(),
            None => &[],
        }
    }

    /// Returns the number of the last round, 0 where there is none.
    pub fn last_round(&self) -> u32
        ensures { result ≡ last_round self.now }
    {
        let rounds = self.rounds.entries();
        rounds.len() as u32
    }

    /// Whether a round is open.
    pub(crate) fn round_is_open(&self) -> bool
        ensures { result ≡ round_is_open self.now }
    {
        match self.rounds.by_number(self.last_round()) {
            Some(round) => round.is_open,
            None => false,
        }
    }

    /// Returns a student's list in a round.
    pub fn list_of(&self, round: u32, student: &str) -> Option<&Listed>
        ensures { option_copied result ≡ list_of self.now round student.now }
    {
        self.rounds.by_number(round)?.lists.by_code(student)
    }

    /// Returns the last round. Its lists are shared.
    pub(crate) fn last(&self) -> Result<Round, AllocError>
        requires found { is_some (round_of self.now (last_round self.now)) ≡ true }
        ensures last { IfOk result (λ last. round_of self.now (last_round self.now) ≡ Some last) }
    {
        self.rounds
            .by_number(self.last_round())
            .unwrap()
            .duplicate(self.alloc)
    }

    /// Returns the aim of a round; greedy where there is no such round.
    pub fn aim_of(&self, round: u32) -> Aim
        ensures aim { result ≡ aim_of self.now round }
        ensures fit { IsFit self.now }
    {
        match self.aims.by_number(round) {
            Some(entry) => entry.aim,
            None => Aim::Greedy,
        }
    }

    /// Returns the aim of the last round; greedy where there is none.
    pub fn last_aim(&self) -> Aim
        ensures aim { result ≡ aim_of self.now (last_round self.now) }
        ensures fit { IsFit self.now }
    {
        self.aim_of(self.last_round())
    }

    /// Returns the aims of the rounds, with one more.
    fn aims_with(&self, round: u32, aim: Aim) -> Result<Entries<RoundAim>, AllocError>
        ensures put { let o = self.now in IfOk result (λ aims. aims ≡ put aim_key (record { round = round; aim = aim }) o.aims) }
    {
        let mut aims = self.aims.duplicate(self.alloc)?;
        aims.put(RoundAim { round, aim })?;
        Ok(aims)
    }

    /// Opens the next round, with this aim.
    pub(crate) fn open_round(&mut self, aim: Aim) -> Result<Done, AllocError>
        requires allowed { plain_refusal self.old (plain.OpenRound aim) ≡ None }
        ensures ok { IfOk result (IsDone (plain.OpenRound aim) self.old self.new) }
        ensures changes { IfOk result (λ done. let changes = done.changes in changes.items ≡ changes_of (plain.OpenRound aim) self.old) }
        ensures err { OnErr result (self.new ≡ self.old) }
    {
        let number = self.last_round() + 1;
        let changes = opening_changes(self.alloc, number, aim)?;
        let aims = self.aims_with(number, aim)?;
        self.rounds.put(Round {
            number,
            is_open: true,
            lists: Entries::new(self.alloc),
        })?;
        self.aims = aims;
        Ok(Done {
            reply: Reply::Opened { round: number },
            changes,
        })
    }

    /// Opens the last round again.
    pub(crate) fn reopen_round(&mut self) -> Result<Done, AllocError>
        requires allowed { plain_refusal self.old plain.ReopenRound ≡ None }
        ensures ok { IfOk result (IsDone plain.ReopenRound self.old self.new) }
        ensures changes { IfOk result (λ done. let changes = done.changes in changes.items ≡ changes_of plain.ReopenRound self.old) }
        ensures err { OnErr result (self.new ≡ self.old) }
    {
        let round = self.last_round();
        let changes = reopening_changes(self.alloc, round)?;
        let placements = self.placements.entries();
        let kept = Entries::of(self.alloc, kept_placements(self.alloc, placements, round)?)?;
        let mut last = self.last()?;
        last.is_open = true;
        self.rounds.put(last)?;
        self.placements = kept;
        Ok(Done {
            reply: Reply::Opened { round },
            changes,
        })
    }
}
