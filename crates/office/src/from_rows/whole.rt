//! Whether what was taken in goes together.

ghost use Rattle.std.specs.Prelude.{◌≡◌, ◌-◌, IfErr, OnOk, false, slice_get, true};
ghost use Rattle.office.specs.from_rows.Common.{list_all, list_any, option_map_or, bytes_eq, has_supervisor, has_project, is_placed_before, are_aimed, are_numbered, only_last_open, is_distinct};
ghost use Rattle.office.specs.from_rows.View.{drafted};
ghost use Rattle.office.specs.from_rows.Inside.Gathering.{choices_among};
ghost use Rattle.office.specs.from_rows.Inside.Whole.{is_whole, are_few, are_offered, are_rounds, is_list, is_placement};

use crate::from_rows::draft::PartialOffice;
use crate::from_rows::fault::RowsFault;
use office_model::{Entries, Listed, MAX_IMPORTS, MAX_ROUNDS, Placement, Round, RoundAim};
use spa::{Code, MAX_PROJECTS, MAX_STUDENTS, MAX_SUPERVISORS, RANKS};

/// Whether the rounds have the numbers from 1 on.
fn are_numbered(rounds: &[Round]) -> bool
    ensures { result ≡ are_numbered 1 rounds.now }
{
    for i in 0..rounds.len() {
        if rounds[i].number as usize != i + 1 {
            return false;
        }
    }
    true
}

/// Whether these are the aims of the rounds, in their order.
fn are_aimed(aims: &[RoundAim], rounds: &[Round]) -> bool
    ensures { result ≡ are_aimed aims.now rounds.now }
{
    if aims.len() != rounds.len() {
        return false;
    }
    for i in 0..rounds.len() {
        if aims[i].round != rounds[i].number {
            return false;
        }
    }
    true
}

/// Whether all rounds but the last are closed.
fn only_last_open(rounds: &[Round]) -> bool
    ensures { result ≡ only_last_open rounds.now }
{
    let mut was_open = false;
    for round in rounds {
        if was_open {
            return false;
        }
        was_open = round.is_open;
    }
    true
}

/// Whether a code stands among these.
fn stands_among(code: &str, codes: &[Code]) -> bool
    ensures { result ≡ list_any (bytes_eq code.now) codes.now }
{
    codes.iter().any(|other| code == other.as_str())
}

/// Whether no code stands twice.
fn is_distinct(codes: &[Code]) -> bool
    ensures { result ≡ is_distinct codes.now }
{
    for i in 0..codes.len() {
        if stands_among(codes[i].as_str(), &codes[i + 1..]) {
            return false;
        }
    }
    true
}

/// Whether a placement's project stands at its rank in the student's list.
fn stands_at_rank(lists: &Entries<Listed>, placement: &Placement) -> bool
    ensures { let p = placement.now in result ≡ option_map_or (bytes_eq p.project) (slice_get (choices_among p.student lists.now) (p.rank - 1)) false }
{
    let choices = match lists.by_code(placement.student.as_str()) {
        Some(listed) => listed.choices.as_slice(),
        None => &[],
    };
    match choices.get(placement.rank.saturating_sub(1) as usize) {
        Some(code) => placement.project.as_str() == code.as_str(),
        None => false,
    }
}

impl PartialOffice {
    /// Whether nothing is too long.
    fn are_few(&self) -> bool
        ensures { result ≡ are_few (drafted self.now) }
    {
        self.supervisors.entries().len() <= MAX_SUPERVISORS
            && self.projects.entries().len() <= MAX_PROJECTS
            && self.students.entries().len() <= MAX_STUDENTS
            && self.rounds.entries().len() <= MAX_ROUNDS as usize
            && self.placements.entries().len() <= MAX_STUDENTS
            && self.imports.entries().len() <= MAX_IMPORTS
    }

    /// Whether the supervisor of each project is on the roll.
    fn are_offered(&self) -> bool
        ensures { result ≡ are_offered (drafted self.now) }
    {
        let projects = self.projects.entries();
        projects.iter().all(|project| {
            self.supervisors
                .by_code(project.supervisor.as_str())
                .is_some()
        })
    }

    /// Whether each of these projects is on the roll.
    fn are_known(&self, projects: &[Code]) -> bool
        ensures { result ≡ list_all (has_project (drafted self.now)) projects.now }
    {
        projects.iter().all(|project| self.projects.by_code(project.as_str()).is_some())
    }

    /// Whether a round before this one placed the student.
    fn is_placed_before(&self, student: &str, number: u32) -> bool
        ensures { result ≡ is_placed_before (drafted self.now) student.now number }
    {
        match self.placements.by_code(student) {
            Some(placement) => placement.round < number,
            None => false,
        }
    }

    /// Whether a list is one of a round.
    fn is_list(&self, number: u32, listed: &Listed) -> bool
        ensures { result ≡ is_list (drafted self.now) number listed.now }
    {
        if self.students.by_code(listed.student.as_str()).is_none() {
            return false;
        }
        if self.is_placed_before(listed.student.as_str(), number) {
            return false;
        }
        let choices = listed.choices.as_slice();
        choices.len() <= RANKS && is_distinct(choices) && self.are_known(choices)
    }

    /// Whether these are lists of a round.
    fn are_lists(&self, number: u32, lists: &[Listed]) -> bool
        ensures { result ≡ list_all (is_list (drafted self.now) number) lists.now }
    {
        lists.iter().all(|listed| self.is_list(number, listed))
    }

    /// Whether the lists of each round are such.
    fn are_listed(&self) -> bool
        ensures { result ≡ list_all (λ r. list_all (is_list (drafted self.now) r.number) r.lists) self.now.rounds }
    {
        let rounds = self.rounds.entries();
        rounds.iter().all(|round| self.are_lists(round.number, round.lists.entries()))
    }

    /// Whether the rounds follow one another, and their lists are such.
    fn are_rounds(&self) -> bool
        ensures { result ≡ are_rounds (drafted self.now) }
    {
        let rounds = self.rounds.entries();
        are_numbered(rounds)
            && are_aimed(self.aims.entries(), rounds)
            && only_last_open(rounds)
            && self.are_listed()
    }

    /// Whether a placement is one by a closed round.
    fn is_placement(&self, placement: &Placement) -> bool
        ensures { result ≡ is_placement (drafted self.now) placement.now }
    {
        match self.rounds.by_number(placement.round) {
            Some(round) => {
                !round.is_open && placement.rank >= 1 && stands_at_rank(&round.lists, placement)
            }
            None => false,
        }
    }

    /// Whether each placement is one by a closed round.
    fn are_placements(&self) -> bool
        ensures { result ≡ list_all (is_placement (drafted self.now)) self.now.placements }
    {
        let placements = self.placements.entries();
        placements
            .iter()
            .all(|placement| self.is_placement(placement))
    }

    /// Whether all of it goes together.
    fn is_whole(&self) -> bool
        ensures { result ≡ is_whole (drafted self.now) }
    {
        self.are_few()
            && self.are_offered()
            && self.are_rounds()
            && self.are_placements()
            && self.are_within()
    }

    /// Fails where not all of it goes together.
    pub(crate) fn need_whole(&self) -> Result<(), RowsFault>
        ensures ok { OnOk result (is_whole (drafted self.now) ≡ true) }
        ensures err { IfErr result (λ fault. (fault ≡ RowsFault.Unfit) × (is_whole (drafted self.now) ≡ false)) }
    {
        if !self.is_whole() {
            return Err(RowsFault::Unfit);
        }
        Ok(())
    }
}
