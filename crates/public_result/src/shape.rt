//! Whether what is assigned is known, and has prices.
#![tactic(auto)]

ghost use Rattle.std.specs.Prelude.{◌≡◌, ℕ, ◌<◌, ◌↔◌, All, IsTrue, length, slice_index_or, Some, None};
ghost use Rattle.public_result.specs.Posted.{HasPrices, IsKnown};

use crate::posted::Posted;
use spa::{MAX_PROJECTS, MAX_STUDENTS, MAX_SUPERVISORS};
use verdict::are_in_range;

/// Whether each project's supervisor is below a count of supervisors.
fn are_offered(projects: &[(usize, u32)], supervisors: usize) -> bool
    ensures { IsTrue result ↔ All (λ p. p.0 < supervisors) projects.now }
{
    projects.iter().all(|project| project.0 < supervisors)
}

/// Whether each student is assigned a project below a count of projects, or none.
fn are_known(students: &[Option<usize>], projects: usize) -> bool
    ensures { IsTrue result ↔ ((s p : ℕ) → s < length students.now → slice_index_or students.now s None ≡ Some p → p < projects) }
{
    for student in 0..students.len() {
        if let Some(project) = students[student] {
            if project >= projects {
                return false;
            }
        }
    }
    true
}

/// Whether known supervisors offer the projects, known projects are assigned, and no roll is too long.
pub(crate) fn is_known(posted: &Posted) -> bool
    ensures { IsTrue result ↔ IsKnown posted.now }
{
    posted.supervisors.len() <= MAX_SUPERVISORS
        && posted.projects.len() <= MAX_PROJECTS
        && posted.students.len() <= MAX_STUDENTS
        && are_offered(&posted.projects, posted.supervisors.len())
        && are_known(&posted.students, posted.projects.len())
}

/// Whether there is a price within the limits for each project and each supervisor.
pub(crate) fn has_prices(posted: &Posted) -> bool
    ensures { IsTrue result ↔ HasPrices posted.now }
{
    posted.project_prices.len() == posted.projects.len()
        && posted.supervisor_prices.len() == posted.supervisors.len()
        && are_in_range(&posted.project_prices)
        && are_in_range(&posted.supervisor_prices)
}
