//! How many are assigned each project, whether that is within the quotas, and whether what has room is free.
#![tactic(auto)]

ghost use Rattle.std.specs.Prelude.{◌≡◌, ℕ, ◌<◌, ◌≤◌, ◌↔◌, IsTrue, [], length};
ghost use Rattle.spa.specs.Shape.{project_quota, supervisor_quota};
ghost use Rattle.verdict.specs.Rows.{price};
ghost use Rattle.public_result.specs.Posted.{HasPrices, IsKnown, IsNothing, IsWithinQuotas, IsRoomFree, in_project, with_supervisor, with_lists};

use crate::posted::Posted;
use crate::prices::is_nothing;

/// Returns how many students are assigned this project.
pub(crate) fn placed_at(posted: &Posted, project: usize) -> usize
    ensures { result ≡ in_project posted.now project }
{
    let mut placed = 0;
    for student in 0..posted.students.len() {
        if let Some(assigned) = posted.students[student] {
            if assigned == project {
                placed += 1;
            }
        }
    }
    placed
}

/// Returns how many students are assigned a project of this supervisor.
pub(crate) fn placed_with(posted: &Posted, supervisor: usize) -> usize
    requires { IsKnown posted.now }
    ensures { result ≡ with_supervisor posted.now supervisor }
{
    let mut placed = 0;
    for student in 0..posted.students.len() {
        if let Some(assigned) = posted.students[student] {
            if posted.projects[assigned].0 == supervisor {
                placed += 1;
            }
        }
    }
    placed
}

/// Whether no project is assigned to more students than its quota.
fn are_projects_within(posted: &Posted) -> bool
    ensures { IsTrue result ↔ ((p : ℕ) → p < length posted.now.projects.items → in_project posted.now p ≤ project_quota (with_lists posted.now []) p) }
{
    for project in 0..posted.projects.len() {
        if placed_at(posted, project) > posted.projects[project].1 as usize {
            return false;
        }
    }
    true
}

/// Whether no supervisor has more students than the quota.
fn are_supervisors_within(posted: &Posted) -> bool
    requires { IsKnown posted.now }
    ensures { IsTrue result ↔ ((l : ℕ) → l < length posted.now.supervisors.items → with_supervisor posted.now l ≤ supervisor_quota (with_lists posted.now []) l) }
{
    for supervisor in 0..posted.supervisors.len() {
        if placed_with(posted, supervisor) > posted.supervisors[supervisor] as usize {
            return false;
        }
    }
    true
}

/// Whether no project and no supervisor has more students than the quota.
pub(crate) fn is_within(posted: &Posted) -> bool
    requires { IsKnown posted.now }
    ensures { IsTrue result ↔ IsWithinQuotas posted.now }
{
    are_projects_within(posted) && are_supervisors_within(posted)
}

/// Whether each project with room costs nothing.
fn are_projects_free(posted: &Posted) -> bool
    requires { HasPrices posted.now }
    ensures { IsTrue result ↔ ((p : ℕ) → p < length posted.now.projects.items → in_project posted.now p < project_quota (with_lists posted.now []) p
        → IsNothing (price posted.now.project_prices.items p)) }
{
    for project in 0..posted.projects.len() {
        if placed_at(posted, project) < posted.projects[project].1 as usize {
            if !is_nothing(&posted.project_prices[project]) {
                return false;
            }
        }
    }
    true
}

/// Whether each supervisor with room costs nothing.
fn are_supervisors_free(posted: &Posted) -> bool
    requires known { IsKnown posted.now }
    requires prices { HasPrices posted.now }
    ensures { IsTrue result ↔ ((l : ℕ) → l < length posted.now.supervisors.items → with_supervisor posted.now l < supervisor_quota (with_lists posted.now []) l
        → IsNothing (price posted.now.supervisor_prices.items l)) }
{
    for supervisor in 0..posted.supervisors.len() {
        if placed_with(posted, supervisor) < posted.supervisors[supervisor] as usize {
            if !is_nothing(&posted.supervisor_prices[supervisor]) {
                return false;
            }
        }
    }
    true
}

/// Whether what has room costs nothing.
pub(crate) fn is_room_free(posted: &Posted) -> bool
    requires known { IsKnown posted.now }
    requires prices { HasPrices posted.now }
    ensures { IsTrue result ↔ IsRoomFree posted.now }
{
    are_projects_free(posted) && are_supervisors_free(posted)
}
