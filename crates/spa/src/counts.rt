//! How many pairs each project and each supervisor has.
#![tactic(auto)]

ghost use Rattle.std.specs.Prelude.{◌≡◌, ℕ, ◌+◌, ◌<◌, ◌^◌, slice_index};
ghost use Rattle.spa.specs.declared.TheConstants.{MAX_PROJECTS, MAX_SUPERVISORS};
ghost use Rattle.spa.specs.Counted.{CountsPair};

use crate::{MAX_PROJECTS, MAX_SUPERVISORS};
use std::marker::Model;

/// How many pairs have each project and how many each supervisor, by position. A pair is counted at once for both, and
/// counting allocates nothing.
#[derive(Drop)]
pub struct Counts {
    projects: [u32; MAX_PROJECTS],
    supervisors: [u32; MAX_SUPERVISORS],
}

impl Model for Counts {
    ghost use Rattle.std.specs.Prelude.{◌≡◌, length};
    ghost use Rattle.spa.specs.declared.TheConstants.{MAX_PROJECTS, MAX_SUPERVISORS};
    ghost use Rattle.spa.specs.Counted.{Counted};

    ghost Value = { Counted };

    ghost view = { λ c. record { projects = c.projects; supervisors = c.supervisors } };

    ghost invariant = { λ c. (length c.projects ≡ MAX_PROJECTS) × (length c.supervisors ≡ MAX_SUPERVISORS) };
}

impl Counts {
    /// Counts of no pair.
    pub fn new() -> Counts
        ensures projects { (p : ℕ) → slice_index result.projects p ≡ 0 }
        ensures supervisors { (l : ℕ) → slice_index result.supervisors l ≡ 0 }
    {
        Counts {
            projects: [0; MAX_PROJECTS],
            supervisors: [0; MAX_SUPERVISORS],
        }
    }

    /// Counts one more pair, of a project of this supervisor.
    pub fn add(&mut self, project: usize, supervisor: usize)
        requires project { project < MAX_PROJECTS }
        requires supervisor { supervisor < MAX_SUPERVISORS }
        requires in_project { slice_index self.old.projects project + 1 < 2 ^ 32 }
        requires with_supervisor { slice_index self.old.supervisors supervisor + 1 < 2 ^ 32 }
        ensures { CountsPair self.old self.new project supervisor }
    {
        self.projects[project] += 1;
        self.supervisors[supervisor] += 1;
    }

    /// Returns how many pairs have the project at this position.
    pub fn in_project(&self, position: usize) -> u32
        requires { position < MAX_PROJECTS }
        ensures { result ≡ slice_index self.now.projects position }
    {
        self.projects[position]
    }

    /// Returns how many pairs have a project of the supervisor at this position.
    pub fn with_supervisor(&self, position: usize) -> u32
        requires { position < MAX_SUPERVISORS }
        ensures { result ≡ slice_index self.now.supervisors position }
    {
        self.supervisors[position]
    }
}
