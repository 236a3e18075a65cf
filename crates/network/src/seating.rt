//! Lists stored next to the places: who is placed at each project, and what each supervisor offers.

ghost use Rattle.std.specs.Prelude.{◌≡◌, ℕ, ◌+◌, ◌*◌, ◌<◌, ◌≤◌, ◌==◌, length, slice_get, Some, IfOk};
ghost use Rattle.network.specs.Inside.Push.{one_if, owner_at};
ghost use Rattle.network.specs.Inside.Labels.{count_of};
ghost use Rattle.network.specs.Inside.Seating.{numbers_at, room_at, HasSameRoom, AreOffered};

use crate::numbers::{put_in, take_out};
use std::alloc::{AllocError, Global};

/// What a search reads in place of going over all students and all projects.
#[derive(Drop)]
pub struct Seating {
    /// The students placed at each project, with room for its quota.
    pub seated: Vec<Vec<usize>>,
    /// The projects of each supervisor.
    pub offered: Vec<Vec<usize>>,
}

/// Returns the students placed at a project.
pub(crate) fn students_at(kept: &Seating, project: usize) -> &[usize]
    requires { project < length kept.now.seated.items }
    ensures { result.now ≡ numbers_at kept.now.seated.items project }
{
    &kept.seated[project]
}

/// Returns the projects of a supervisor.
pub(crate) fn projects_at(kept: &Seating, supervisor: usize) -> &[usize]
    requires { supervisor < length kept.now.offered.items }
    ensures { result.now ≡ numbers_at kept.now.offered.items supervisor }
{
    &kept.offered[supervisor]
}

/// Adds a student to a project.
pub(crate) fn seat(kept: &mut Seating, project: usize, student: usize)
    requires project { project < length kept.old.seated.items }
    requires room { length (numbers_at kept.old.seated.items project) < room_at kept.old.seated.items project }
    ensures counts { (p s : ℕ) → count_of (numbers_at kept.new.seated.items p) s
        ≡ count_of (numbers_at kept.old.seated.items p) s + one_if (project == p) * one_if (student == s) }
    ensures rest { HasSameRoom kept.old kept.new }
{
    put_in(&mut kept.seated[project], student);
}

/// Takes a student out of a project.
pub(crate) fn unseat(kept: &mut Seating, project: usize, student: usize)
    requires project { project < length kept.old.seated.items }
    requires there { 0 < count_of (numbers_at kept.old.seated.items project) student }
    ensures counts { (p s : ℕ) → count_of (numbers_at kept.new.seated.items p) s + one_if (project == p) * one_if (student == s)
        ≡ count_of (numbers_at kept.old.seated.items p) s }
    ensures shorter { (p : ℕ) → length (numbers_at kept.new.seated.items p) ≤ length (numbers_at kept.old.seated.items p) }
    ensures rest { HasSameRoom kept.old kept.new }
{
    take_out(&mut kept.seated[project], student);
}

/// Creates lists of nobody, with room for the quota of each project.
pub(crate) fn empty_seats(
    alloc: Global,
    projects: &[(usize, u32)],
) -> Result<Vec<Vec<usize>>, AllocError>
    ensures len { IfOk result (λ v. length v.items ≡ length projects.now) }
    ensures none { IfOk result (λ v. (p s : ℕ) → count_of (numbers_at v.items p) s ≡ 0) }
    ensures room { IfOk result (λ v. (p l q : ℕ) → slice_get projects.now p ≡ Some (l, q) → q ≤ room_at v.items p) }
{
    let mut lists = Vec::with_capacity(alloc, projects.len())?;
    for i in 0..projects.len() {
        // Room for the whole quota, so that no push has to allocate: it could not be given up half-way.
        lists.push(Vec::with_capacity(alloc, projects[i].1 as usize)?)?;
    }
    Ok(lists)
}

/// Returns the projects of one supervisor.
fn projects_of(
    alloc: Global,
    projects: &[(usize, u32)],
    supervisor: usize,
) -> Result<Vec<usize>, AllocError>
    ensures { IfOk result (λ v. (p : ℕ) → count_of v.items p ≡ owner_at (slice_get projects.now p) supervisor) }
{
    let mut list = Vec::new(alloc);
    for i in 0..projects.len() {
        if projects[i].0 == supervisor {
            list.push(i)?;
        }
    }
    Ok(list)
}

/// Returns the projects of each supervisor.
pub(crate) fn all_offered(
    alloc: Global,
    supervisors: &[u32],
    projects: &[(usize, u32)],
) -> Result<Vec<Vec<usize>>, AllocError>
    ensures { IfOk result (λ v. AreOffered supervisors.now projects.now v.items) }
{
    let mut lists = Vec::with_capacity(alloc, supervisors.len())?;
    for i in 0..supervisors.len() {
        // All projects again for each supervisor: it is done once, when a network starts.
        lists.push(projects_of(alloc, projects, i)?)?;
    }
    Ok(lists)
}
