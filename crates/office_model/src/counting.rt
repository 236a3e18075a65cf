//! Placements, counted for all projects and supervisors in one pass.

ghost use Rattle.std.specs.Prelude.{◌≡◌, ◌+◌, ◌<◌, ◌^◌, ℕ, IfSome, None, length, slice_index};
ghost use Rattle.office_model.specs.Counted.{is_made_by, AreRolls, AreCounted};
ghost use Rattle.office_model.specs.Inside.Counted.{ArePositions, IsOffRoll, CountsPlacement};

use crate::entries::{Project, Supervisor};
use crate::rounds::Placement;
use crate::sorted::search;
use spa::Counts;

/// Whether a round up to this one made a placement; where none is named, any round did.
fn is_made_by(up_to: Option<u32>, placement: &Placement) -> bool
    ensures { result ≡ is_made_by up_to placement.now }
{
    match up_to {
        Some(round) => placement.round <= round,
        None => true,
    }
}

/// Returns the positions of a project and of its supervisor, if it is on the roll.
fn positions(
    supervisors: &[Supervisor],
    projects: &[Project],
    project: &str,
) -> Option<(usize, usize)>
    requires { AreRolls supervisors.now projects.now }
    ensures found { IfSome result (λ at. ArePositions supervisors.now projects.now project.now at.0 at.1) }
    ensures absent { result ≡ None → IsOffRoll supervisors.now projects.now project.now }
{
    let at = search(projects, 0, project).ok()?;
    let offerer = search(supervisors, 0, projects[at].supervisor.as_str()).ok()?;
    Some((at, offerer))
}

/// Counts a placement for its project and for the project's supervisor.
fn count(
    counts: &mut Counts,
    up_to: Option<u32>,
    supervisors: &[Supervisor],
    projects: &[Project],
    placement: &Placement,
)
    requires rolls { AreRolls supervisors.now projects.now }
    requires in_project { (k : ℕ) → slice_index counts.old.projects k + 1 < 2 ^ 32 }
    requires with_supervisor { (k : ℕ) → slice_index counts.old.supervisors k + 1 < 2 ^ 32 }
    ensures { CountsPlacement up_to supervisors.now projects.now placement.now counts.old counts.new }
{
    if !is_made_by(up_to, placement) {
        return;
    }
    if let Some((project, supervisor)) = positions(
        supervisors,
        projects,
        placement.project.as_str(),
    ) {
        counts.add(project, supervisor);
    }
}

/// Returns how many of the placements that rounds up to this one made each project and each supervisor has, by position in the rolls. Where
/// no round is named all are counted. Allocates nothing.
pub fn counted(
    up_to: Option<u32>,
    supervisors: &[Supervisor],
    projects: &[Project],
    placements: &[Placement],
) -> Counts
    requires rolls { AreRolls supervisors.now projects.now }
    requires few { length placements.now < 2 ^ 32 }
    ensures { AreCounted up_to supervisors.now projects.now placements.now result }
{
    let mut counts = Counts::new();
    for placement in placements {
        count(&mut counts, up_to, supervisors, projects, placement);
    }
    counts
}
