//! The instance of a round, and what is counted of placements.

ghost use Rattle.std.specs.Prelude.{◌≡◌, ◌≤◌, ℕ, List, map, length, Option, None, IfOk};
ghost use Rattle.office.specs.closing.Common.{MAX_PROJECTS, MAX_SUPERVISORS, instance_of, count_in, count_with, offers};
ghost use Rattle.office.specs.closing.Handed.{ArePartsOfFit, IsInstanceLeft};
ghost use Rattle.spa.specs.Named.{IsFit};
ghost use Rattle.office.specs.closing.Inside.Handed.{AreProjectsLeft, AreSupervisorsLeft, student_listed};

use office_model::{Choices, Entries, Listed, Placement, Project, Supervisor, counted};
use spa::{Code, Counts, Instance, InstanceFault};
use std::alloc::{AllocError, Global};

/// Whether a supervisor offers a project.
pub fn is_offered_by(projects: &Entries<Project>, supervisor: &str, project: &str) -> bool
    ensures { result ≡ offers projects.now supervisor.now project.now }
{
    match projects.by_code(project) {
        Some(entry) => supervisor == entry.supervisor.as_str(),
        None => false,
    }
}

/// Returns how many of the placements are in a project.
pub fn placed_in_project(placements: &[Placement], project: &str) -> usize
    ensures { result ≡ count_in None placements.now project.now }
{
    placements
        .iter()
        .filter(|placement| project == placement.project.as_str())
        .count()
}

/// Returns how many of the placements are in a supervisor's projects.
pub fn placed_with_supervisor(
    projects: &Entries<Project>,
    placements: &[Placement],
    supervisor: &str,
) -> usize
    ensures { result ≡ count_with None projects.now placements.now supervisor.now }
{
    placements
        .iter()
        .filter(|placement| is_offered_by(projects, supervisor, placement.project.as_str()))
        .count()
}

/// Returns the supervisors, with the quotas less what is counted.
fn supervisors_left(
    alloc: Global,
    supervisors: &[Supervisor],
    counts: &Counts,
) -> Result<Vec<(Code, u32)>, AllocError>
    requires { length supervisors.now ≤ MAX_SUPERVISORS }
    ensures { IfOk result (λ roll. AreSupervisorsLeft supervisors.now counts.now roll.items) }
{
    let mut roll = Vec::new(alloc);
    for position in 0..supervisors.len() {
        let entry = &supervisors[position];
        let left = entry.quota.saturating_sub(counts.with_supervisor(position));
        roll.push((entry.code.copy(), left))?;
    }
    Ok(roll)
}

/// Returns the projects, with the quotas less what is counted.
fn projects_left(
    alloc: Global,
    projects: &[Project],
    counts: &Counts,
) -> Result<Vec<(Code, Code, u32)>, AllocError>
    requires { length projects.now ≤ MAX_PROJECTS }
    ensures { IfOk result (λ roll. AreProjectsLeft projects.now counts.now roll.items) }
{
    let mut roll = Vec::new(alloc);
    for position in 0..projects.len() {
        let entry = &projects[position];
        let left = entry.quota.saturating_sub(counts.in_project(position));
        roll.push((entry.code.copy(), entry.supervisor.copy(), left))?;
    }
    Ok(roll)
}

/// Returns the codes of a list.
fn codes_of(alloc: Global, choices: &Choices) -> Result<Vec<Code>, AllocError>
    ensures { IfOk result (λ codes. codes.items ≡ choices.now) }
{
    let mut copies = Vec::new(alloc);
    for code in choices.as_slice() {
        copies.push(code.copy())?;
    }
    Ok(copies)
}

/// Returns the students with their lists.
fn students_listed(alloc: Global, lists: &[Listed]) -> Result<Vec<(Code, Vec<Code>)>, AllocError>
    ensures { IfOk result (λ roll. map (λ e. (e.0, e.1.items)) roll.items ≡ map student_listed lists.now) }
{
    let mut roll = Vec::new(alloc);
    for listed in lists {
        roll.push((listed.student.copy(), codes_of(alloc, &listed.choices)?))?;
    }
    Ok(roll)
}

/// Makes the instance of a round of a fit office from its parts: the supervisors and projects with what the rounds up to one left of
/// their quotas, or all rounds where none is named, and the students with a list in the round. It fails only where memory runs out.
pub fn round_instance(
    alloc: Global,
    up_to: Option<u32>,
    supervisors: &[Supervisor],
    projects: &Entries<Project>,
    placements: &[Placement],
    lists: &[Listed],
) -> Result<Instance, AllocError>
    requires { ArePartsOfFit supervisors.now projects.now placements.now lists.now }
    ensures instance { IfOk result (λ i. IsInstanceLeft up_to supervisors.now projects.now placements.now lists.now (instance_of i)) }
    ensures fit { IfOk result IsFit }
{
    let roll = projects.entries();
    let counts = counted(up_to, supervisors, roll, placements);
    let supervisors = supervisors_left(alloc, supervisors, &counts)?;
    let students = students_listed(alloc, lists)?;
    let projects = projects_left(alloc, roll, &counts)?;
    match Instance::new(alloc, supervisors, projects, students) {
        Ok(instance) => Ok(instance),
        Err(fault) => {
            let for_memory = matches!(&fault, InstanceFault::Memory);
            prove!(for_memory);
            Err(AllocError)
        }
    }
}
