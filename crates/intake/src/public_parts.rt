//! The parts of a public text, made of what was read.
#![tactic(auto)]

ghost use Rattle.std.specs.Prelude.{◌≡◌, ◌<◌, map, length, slice_get, Some, IfOk, IfSome, All, Contains};
ghost use Rattle.spa.specs.Codes.{code_at};
ghost use Rattle.intake.specs.declared.section.Kind.TheVariants.{Public};
ghost use Rattle.intake.specs.Parts.{IsListOf, IsRoll};
ghost use Rattle.intake.specs.Lines.{lines_of};
ghost use Rattle.intake.specs.Public.{IsPublicParts, public_read, assigned_list};
ghost use Rattle.intake.specs.Inside.PartialRound.{draft_of, IsDraft};
ghost use Rattle.intake.specs.Inside.Posting.{ArePostedProjects, ArePostedStudents, ArePostedSupervisors};

use crate::draft::{PartialRound, fill};
use crate::lookup::position_of;
use public_result::Posted;
use spa::{Aim, COMPONENTS, Code};
use std::alloc::{AllocError, Global};

/// The parts of a public text: what is posted of a round, with its aim and the codes of who is in it.
#[derive(Drop)]
pub struct PublicParts {
    /// The aim: greedy, unless the text says that it is generous.
    pub aim: Aim,
    /// The supervisors' codes.
    pub supervisors: Vec<Code>,
    /// The projects' codes.
    pub projects: Vec<Code>,
    /// The students' codes.
    pub students: Vec<Code>,
    /// What is posted, by positions among these codes.
    pub posted: Posted,
}

/// Returns the position of a code that stands in a roll.
fn owner_of(supervisors: &[(Code, u32)], code: &Code) -> usize
    requires roll { IsRoll (map (λ e. e.0) supervisors.now) }
    requires known { Contains (map (λ e. e.0) supervisors.now) code.now }
    ensures { slice_get (map (λ e. e.0) supervisors.now) result ≡ Some code.now }
{
    match position_of(supervisors, code.as_str()) {
        Some(owner) => owner,
        None => unreachable!(),
    }
}

/// Returns the position of the project that stands in the place of a list, or none.
fn assigned_of(projects: &[(Code, Code, u32)], list: &[Code]) -> Option<usize>
    requires roll { IsRoll (map (λ e. e.0) projects.now) }
    requires list { IsListOf Public (map (λ e. e.0) projects.now) list.now }
    ensures list { map (code_at (map (λ e. e.0) projects.now)) (assigned_list result) ≡ list.now }
    ensures known { IfSome result (λ p. p < length projects.now) }
{
    let Some(code) = list.first() else {
        return None;
    };
    position_of(projects, code.as_str())
}

/// Returns the codes and the quotas of supervisors.
fn post_supervisors(
    alloc: Global,
    roll: &[(Code, u32)],
) -> Result<(Vec<Code>, Vec<u32>), AllocError>
    ensures { IfOk result (λ v. ArePostedSupervisors roll.now v.0.items v.1.items) }
{
    let mut codes = Vec::with_capacity(alloc, roll.len())?;
    let mut quotas = Vec::with_capacity(alloc, roll.len())?;
    for l in 0..roll.len() {
        codes.push(roll[l].0.copy())?;
        quotas.push(roll[l].1)?;
    }
    Ok((codes, quotas))
}

/// Returns the codes of projects, and of each the position of its supervisor and the quota.
fn post_projects(
    alloc: Global,
    supervisors: &[(Code, u32)],
    roll: &[(Code, Code, u32)],
) -> Result<(Vec<Code>, Vec<(usize, u32)>), AllocError>
    requires roll { IsRoll (map (λ e. e.0) supervisors.now) }
    requires known { All (λ e. Contains (map (λ e. e.0) supervisors.now) e.1) roll.now }
    ensures { IfOk result (λ v. ArePostedProjects (map (λ e. e.0) supervisors.now) roll.now v.0.items v.1.items) }
{
    let mut codes = Vec::with_capacity(alloc, roll.len())?;
    let mut offers = Vec::with_capacity(alloc, roll.len())?;
    for p in 0..roll.len() {
        codes.push(roll[p].0.copy())?;
        offers.push((owner_of(supervisors, &roll[p].1), roll[p].2))?;
    }
    Ok((codes, offers))
}

/// Returns the codes of students, and of each the position of what is assigned or none.
fn post_students(
    alloc: Global,
    projects: &[(Code, Code, u32)],
    roll: &[(Code, Vec<Code>)],
) -> Result<(Vec<Code>, Vec<Option<usize>>), AllocError>
    requires roll { IsRoll (map (λ e. e.0) projects.now) }
    requires lists { All (λ e. IsListOf Public (map (λ e. e.0) projects.now) e.1.items) roll.now }
    ensures { IfOk result (λ v. ArePostedStudents (map (λ e. e.0) projects.now) (map (λ e. e.0) roll.now) (map (λ e. e.1.items) roll.now) v.0.items v.1.items) }
{
    let mut codes = Vec::with_capacity(alloc, roll.len())?;
    let mut assigned = Vec::with_capacity(alloc, roll.len())?;
    for s in 0..roll.len() {
        codes.push(roll[s].0.copy())?;
        assigned.push(assigned_of(projects, &roll[s].1))?;
    }
    Ok((codes, assigned))
}

impl PublicParts {
    /// Returns the parts of a result that were read: what has no line has a price of zero.
    pub(crate) fn of(alloc: Global, draft: PartialRound) -> Result<PublicParts, AllocError>
        requires { IsDraft Public (draft_of draft) }
        ensures parts { IfOk result (λ r. IsPublicParts r) }
        ensures lines { IfOk result (λ r. lines_of Public (public_read r) ≡ lines_of Public (draft_of draft)) }
    {
        let (supervisors, quotas) = post_supervisors(alloc, &draft.supervisors)?;
        let (projects, offers) = post_projects(alloc, &draft.supervisors, &draft.projects)?;
        let (students, assigned) = post_students(alloc, &draft.projects, &draft.students)?;
        let prices = draft.prices;
        let mut project_prices = prices.projects;
        fill(&mut project_prices, projects.len(), [0; COMPONENTS])?;
        let mut supervisor_prices = prices.supervisors;
        fill(&mut supervisor_prices, supervisors.len(), [0; COMPONENTS])?;
        Ok(PublicParts {
            aim: draft.aim,
            supervisors,
            projects,
            students,
            posted: Posted {
                supervisors: quotas,
                projects: offers,
                students: assigned,
                project_prices,
                supervisor_prices,
            },
        })
    }
}
