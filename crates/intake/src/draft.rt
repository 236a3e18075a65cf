//! The parts of a text as far as it was read.
#![tactic(auto)]

ghost use Rattle.std.specs.Prelude.{◌≡◌, ◌==◌, true, ◌<◌, ◌-◌, ◌++◌, ◌↔◌, ◌≤◌, ℕ, ℤ, List, [], ◌∷◌, map, length, replicate, All, IfOk, OnOk, MatchOption, IsTrue, None};
ghost use Rattle.std.specs.List.{slice_split};
ghost use Rattle.spa.specs.declared.TheConstants.{RANKS};
ghost use Rattle.spa.specs.Instance.{supervisor_codes, student_codes, project_codes};
ghost use Rattle.intake.specs.declared.section.Kind.TheVariants.{Round};
ghost use Rattle.intake.specs.Parts.{IsListOf, IsRoll, IsRoundParts};
ghost use Rattle.intake.specs.declared.section.SectionName.TheVariants.{Aims, Supervisors, Projects, Students, Pairs};
ghost use Rattle.intake.specs.Inside.PartialRound.{draft_of, IsDraft, HasLine, HasNoPrices, IsCompleted, NoneOrAll, nothing, IsWhole};
ghost use Rattle.intake.specs.Inside.Entries.{AddsEntry, AddsPrice, AddsLine, AddsOne, HasNoPairs, HasNoProjects, HasNoStudents, MayComeNext, NextAim, NextPair, NextProject, NextSupervisor, StandsAfter, with_entry, zeros};
ghost use Rattle.intake.specs.Lines.{is_zero_price, lines_of};
ghost use Rattle.intake.specs.View.{parts_read};

use crate::fields::{pieces, read_price, read_quota};
use crate::lookup::{Coded, next_code, position_at, position_in};
use crate::round::RoundParts;
use crate::section::{Kind, SectionName};
use arrayvec::ArrayVec;
use spa::{
    Aim, COMPONENTS, Code, Guesses, Instance, InstanceFault, MAX_PROJECTS, MAX_STUDENTS,
    MAX_SUPERVISORS, Matching, RANKS,
};
use std::alloc::{AllocError, Global};
use verdict::Prices;

/// The parts so far. There is a place or none for each student up to the last that has a pair, and a price for the first
/// entries of a roll.
#[derive(Drop)]
pub(crate) struct PartialRound {
    pub(crate) aim: Aim,
    pub(crate) supervisors: Vec<(Code, u32)>,
    pub(crate) projects: Vec<(Code, Code, u32)>,
    pub(crate) students: Vec<(Code, Vec<Code>)>,
    pub(crate) places: Vec<Option<u8>>,
    pub(crate) prices: Prices,
    by_supervisor: Guesses,
    by_project: Guesses,
}

/// Reads the projects after a student's code, each of them known and none twice.
fn read_list(
    kind: Kind,
    alloc: Global,
    projects: &[(Code, Code, u32)],
    guesses: &Guesses,
    fields: &[&[u8]],
) -> Result<Option<Vec<Code>>, AllocError>
    requires { IsRoll (map (λ e. e.0) projects.now) }
    ensures { IfOk result (λ o. MatchOption o (¬ IsListOf kind (map (λ e. e.0) projects.now) (map (λ f. f.now) fields.now))
        (λ l. (l.items ≡ map (λ f. f.now) fields.now) × IsListOf kind (map (λ e. e.0) projects.now) (map (λ f. f.now) fields.now))) }
{
    let (least, most) = kind.listed();
    if fields.len() < least || fields.len() > most {
        return Ok(None);
    }
    let mut list = Vec::with_capacity(alloc, fields.len())?;
    let mut positions: ArrayVec<usize, RANKS> = ArrayVec::new();
    for field in fields {
        let Some(position) = position_at(projects, field, guesses.guess(field)) else {
            return Ok(None);
        };
        if positions.contains(&position) {
            return Ok(None);
        }
        list.push(projects[position].0.copy())?;
        positions.push(position);
    }
    Ok(Some(list))
}

/// Whether each number of a price is zero.
fn is_zero(price: &[i64; COMPONENTS]) -> bool
    ensures { IsTrue result ↔ (is_zero_price price.now ≡ true) }
{
    price.iter().all(|number| *number == 0)
}

/// Whether a price has a line.
pub(crate) fn has_line(kind: Kind, price: &[i64; COMPONENTS]) -> bool
    ensures { IsTrue result ↔ HasLine kind price.now }
{
    kind == Kind::Round || !is_zero(price)
}

/// Whether a price may stand at a position after those of the first entries, whose number is given.
fn stands_after(kind: Kind, priced: usize, position: usize) -> bool
    ensures { IsTrue result ↔ StandsAfter kind priced position }
{
    match kind {
        Kind::Round => position == priced,
        Kind::Public => position >= priced,
    }
}

/// Fills a list with a value up to a length.
pub(crate) fn fill<T: Copy>(list: &mut Vec<T>, len: usize, value: T) -> Result<(), AllocError>
    requires { length list.old.items ≤ len }
    ensures { OnOk result (list.new.items ≡ list.old.items ++ replicate (len - length list.old.items) value) }
{
    for _ in list.len()..len {
        list.push(value)?;
    }
    Ok(())
}

/// Adds the price of an entry of a roll, after those that have one.
fn add_price<E: Coded>(
    kind: Kind,
    prices: &mut Vec<[i64; COMPONENTS]>,
    roll: &[E],
    fields: &[&[u8]],
) -> Result<bool, AllocError>
    requires { IsRoll (map E.key roll.now) }
    ensures { IfOk result (λ b. AddsPrice kind (map E.key roll.now) prices.old.items (map (λ f. f.now) fields.now) prices.new.items b) }
{
    let Some((code, numbers)) = fields.split_first() else {
        return Ok(false);
    };
    let Some(position) = position_at(roll, code, prices.len()) else {
        return Ok(false);
    };
    if !stands_after(kind, prices.len(), position) {
        return Ok(false);
    }
    let Some(price) = read_price(numbers) else {
        return Ok(false);
    };
    if !has_line(kind, &price) {
        return Ok(false);
    }
    fill(prices, position, [0; COMPONENTS])?;
    prices.push(price)?;
    Ok(true)
}

/// Whether the prices of a roll are complete: a round has none or one for each entry.
fn is_completed(kind: Kind, prices: &[[i64; COMPONENTS]], entries: usize) -> bool
    ensures { IsTrue result ↔ IsCompleted kind entries prices.now }
{
    kind == Kind::Public || prices.is_empty() || prices.len() == entries
}

impl PartialRound {
    /// Creates a draft of which no line was read.
    pub(crate) fn new(alloc: Global) -> Self
        ensures { draft_of result ≡ nothing }
    {
        PartialRound {
            aim: Aim::Greedy,
            supervisors: Vec::new(alloc),
            projects: Vec::new(alloc),
            students: Vec::new(alloc),
            places: Vec::new(alloc),
            prices: Prices {
                students: Vec::new(alloc),
                projects: Vec::new(alloc),
                supervisors: Vec::new(alloc),
            },
            by_supervisor: Guesses::new(),
            by_project: Guesses::new(),
        }
    }

    /// Whether no price was read.
    fn has_no_prices(&self) -> bool
        ensures { IsTrue result ↔ HasNoPrices (draft_of self.now) }
    {
        self.prices.students.is_empty()
            && self.prices.projects.is_empty()
            && self.prices.supervisors.is_empty()
    }

    /// Whether no pair and no price was read.
    fn has_no_pairs(&self) -> bool
        ensures { IsTrue result ↔ HasNoPairs (draft_of self.now) }
    {
        self.places.is_empty() && self.has_no_prices()
    }

    /// Whether no student was read, nor anything after.
    fn has_no_students(&self) -> bool
        ensures { IsTrue result ↔ HasNoStudents (draft_of self.now) }
    {
        self.students.is_empty() && self.has_no_pairs()
    }

    /// Whether no project was read, nor anything after.
    fn has_no_projects(&self) -> bool
        ensures { IsTrue result ↔ HasNoProjects (draft_of self.now) }
    {
        self.projects.is_empty() && self.has_no_students()
    }

    /// Whether the prices of the students are complete.
    fn has_students_priced(&self, kind: Kind) -> bool
        ensures { IsTrue result ↔ IsCompleted kind (length (student_codes (draft_of self.now).instance)) (draft_of self.now).student_prices }
    {
        is_completed(kind, &self.prices.students, self.students.len())
    }

    /// Whether the prices of the projects are complete.
    fn has_projects_priced(&self, kind: Kind) -> bool
        ensures { IsTrue result ↔ IsCompleted kind (length (project_codes (draft_of self.now).instance)) (draft_of self.now).project_prices }
    {
        is_completed(kind, &self.prices.projects, self.projects.len())
    }

    /// Whether a line of a section may come.
    fn may_come_next(&self, kind: Kind, section: SectionName) -> bool
        ensures { IsTrue result ↔ MayComeNext kind section (draft_of self.now) }
    {
        match section {
            SectionName::Aims => self.supervisors.is_empty() && self.has_no_projects(),
            SectionName::Supervisors => self.has_no_projects(),
            SectionName::Projects => self.has_no_students(),
            SectionName::Students => self.has_no_pairs(),
            SectionName::Pairs => kind == Kind::Round && self.has_no_prices(),
            SectionName::StudentPrices => {
                kind == Kind::Round
                    && self.prices.projects.is_empty()
                    && self.prices.supervisors.is_empty()
            }
            SectionName::ProjectPrices => {
                self.has_students_priced(kind) && self.prices.supervisors.is_empty()
            }
            SectionName::SupervisorPrices => {
                self.has_students_priced(kind) && self.has_projects_priced(kind)
            }
        }
    }

    /// Makes the aim generous, if the fields say so and none before did.
    fn add_aim(&mut self, fields: &[&[u8]]) -> bool
        ensures { AddsOne (NextAim (draft_of self.old).aim (map (λ f. f.now) fields.now)) (with_entry Aims (draft_of self.old)) (draft_of self.new) result }
    {
        let [name] = fields else {
            return false;
        };
        if self.aim != Aim::Greedy {
            return false;
        }
        if *name != "generous".as_bytes() {
            return false;
        }
        self.aim = Aim::Generous;
        true
    }

    /// Adds a supervisor, if the fields are of the next.
    fn add_supervisor(&mut self, fields: &[&[u8]]) -> Result<bool, AllocError>
        requires { IsRoll (supervisor_codes (draft_of self.old).instance) }
        ensures { IfOk result (λ b. AddsOne (NextSupervisor (draft_of self.old) (map (λ f. f.now) fields.now)) (with_entry Supervisors (draft_of self.old)) (draft_of self.new) b) }
    {
        let [code, quota] = fields else {
            return Ok(false);
        };
        let Some(code) = next_code(&self.supervisors, MAX_SUPERVISORS, code) else {
            return Ok(false);
        };
        let Some(quota) = read_quota(quota) else {
            return Ok(false);
        };
        let next = self.supervisors.len();
        self.by_supervisor.note(code.as_str().as_bytes(), next);
        self.supervisors.push((code, quota))?;
        Ok(true)
    }

    /// Adds a project, if the fields are of the next.
    fn add_project(&mut self, fields: &[&[u8]]) -> Result<bool, AllocError>
        requires supervisors { IsRoll (supervisor_codes (draft_of self.old).instance) }
        requires projects { IsRoll (project_codes (draft_of self.old).instance) }
        ensures { IfOk result (λ b. AddsOne (NextProject (draft_of self.old) (map (λ f. f.now) fields.now)) (with_entry Projects (draft_of self.old)) (draft_of self.new) b) }
    {
        let [code, supervisor, quota] = fields else {
            return Ok(false);
        };
        let Some(code) = next_code(&self.projects, MAX_PROJECTS, code) else {
            return Ok(false);
        };
        let Some(quota) = read_quota(quota) else {
            return Ok(false);
        };
        let guess = self.by_supervisor.guess(supervisor);
        let Some(owner) = position_at(&self.supervisors, supervisor, guess) else {
            return Ok(false);
        };
        let supervisor = self.supervisors[owner].0.copy();
        let next = self.projects.len();
        self.by_project.note(code.as_str().as_bytes(), next);
        self.projects.push((code, supervisor, quota))?;
        Ok(true)
    }

    /// Adds a student, if the fields are of the next.
    fn add_student(
        &mut self,
        kind: Kind,
        alloc: Global,
        fields: &[&[u8]],
    ) -> Result<bool, AllocError>
        requires { IsDraft kind (draft_of self.old) }
        ensures { IfOk result (λ b. AddsEntry kind Students (draft_of self.old) (map (λ f. f.now) fields.now) (draft_of self.new) b) }
    {
        let Some((code, list)) = fields.split_first() else {
            return Ok(false);
        };
        let Some(code) = next_code(&self.students, MAX_STUDENTS, code) else {
            return Ok(false);
        };
        let Some(list) = read_list(kind, alloc, &self.projects, &self.by_project, list)? else {
            return Ok(false);
        };
        self.students.push((code, list))?;
        Ok(true)
    }

    /// Adds a pair, if the fields are of the next.
    fn add_pair(&mut self, fields: &[&[u8]]) -> Result<bool, AllocError>
        requires students { IsRoll (student_codes (draft_of self.old).instance) }
        requires lists { All (λ e. length e.list ≤ RANKS) (draft_of self.old).instance.students }
        ensures { IfOk result (λ b. AddsOne (NextPair (draft_of self.old) (map (λ f. f.now) fields.now)) (with_entry Pairs (draft_of self.old)) (draft_of self.new) b) }
    {
        let [student, project] = fields else {
            return Ok(false);
        };
        // As a rule each student has a pair.
        let guess = self.places.len();
        let Some(position) = position_at(&self.students, student, guess) else {
            return Ok(false);
        };
        if position < self.places.len() {
            return Ok(false);
        }
        let Some(before) = position_in(&self.students[position].1, project) else {
            return Ok(false);
        };
        let place = before as u8 + 1;
        fill(&mut self.places, position, None)?;
        self.places.push(Some(place))?;
        Ok(true)
    }

    /// Adds what a row of a section stands for, if it comes next there.
    fn add_to(
        &mut self,
        kind: Kind,
        alloc: Global,
        section: SectionName,
        row: &[&[u8]],
    ) -> Result<bool, AllocError>
        requires { IsDraft kind (draft_of self.old) }
        ensures { IfOk result (λ b. AddsEntry kind section (draft_of self.old) (map (λ f. f.now) row.now) (draft_of self.new) b) }
    {
        match section {
            SectionName::Aims => Ok(self.add_aim(row)),
            SectionName::Supervisors => self.add_supervisor(row),
            SectionName::Projects => self.add_project(row),
            SectionName::Students => self.add_student(kind, alloc, row),
            SectionName::Pairs => self.add_pair(row),
            SectionName::StudentPrices => {
                let added = add_price(kind, &mut self.prices.students, &self.students, row)?;
                Ok(added)
            }
            SectionName::ProjectPrices => {
                let added = add_price(kind, &mut self.prices.projects, &self.projects, row)?;
                Ok(added)
            }
            SectionName::SupervisorPrices => {
                let added = add_price(kind, &mut self.prices.supervisors, &self.supervisors, row)?;
                Ok(added)
            }
        }
    }

    /// Adds what a line's fields stand for, if they may come here.
    fn add(&mut self, kind: Kind, alloc: Global, fields: &[&[u8]]) -> Result<bool, AllocError>
        requires { IsDraft kind (draft_of self.old) }
        ensures { IfOk result (λ b. AddsLine kind (draft_of self.old) (map (λ f. f.now) fields.now) (draft_of self.new) b) }
    {
        let Some((letter, row)) = fields.split_first() else {
            return Ok(false);
        };
        let Some(section) = kind.section_of(letter) else {
            return Ok(false);
        };
        if !self.may_come_next(kind, section) {
            return Ok(false);
        }
        self.add_to(kind, alloc, section, row)
    }

    /// Adds what a line stands for, if it may come here.
    pub(crate) fn add_line(
        &mut self,
        kind: Kind,
        alloc: Global,
        line: &[u8],
    ) -> Result<bool, AllocError>
        requires { IsDraft kind (draft_of self.old) }
        ensures { IfOk result (λ b. AddsLine kind (draft_of self.old) (slice_split (λ b. b == 44) line.now) (draft_of self.new) b) }
    {
        let fields = pieces(alloc, line, b',', COMPONENTS + 2)?;
        self.add(kind, alloc, &fields)
    }

    /// Whether the text may end here.
    pub(crate) fn is_whole(&self, kind: Kind) -> bool
        ensures { IsTrue result ↔ IsWhole kind (draft_of self.now) }
    {
        self.has_students_priced(kind)
            && self.has_projects_priced(kind)
            && is_completed(kind, &self.prices.supervisors, self.supervisors.len())
    }

    /// Returns the parts of a round that were read.
    pub(crate) fn finish(self, alloc: Global) -> Result<RoundParts, AllocError>
        requires draft { IsDraft Round (draft_of self) }
        requires whole { IsWhole Round (draft_of self) }
        ensures parts { IfOk result (λ r. IsRoundParts (parts_read r)) }
        ensures lines { IfOk result (λ r. lines_of Round (parts_read r) ≡ lines_of Round (draft_of self)) }
    {
        let mut places = self.places;
        fill(&mut places, self.students.len(), None)?;
        match Instance::new(alloc, self.supervisors, self.projects, self.students) {
            Ok(instance) => Ok(RoundParts {
                aim: self.aim,
                instance,
                matching: Matching { places },
                prices: self.prices,
            }),
            Err(fault) => match fault {
                InstanceFault::Memory => Err(AllocError),
                _ => unreachable!(),
            },
        }
    }
}
