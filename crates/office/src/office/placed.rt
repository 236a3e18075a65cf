//! Placements, and what is counted of them.

ghost use Rattle.std.specs.Prelude.{◌≡◌, ◌+◌, ◌<◌, ◌==◌, ◌&&◌, ◌≤◌, ℕ, IsTrue, count_by, length};
ghost use Rattle.office.specs.Common.{IsFit, placed_in_project, placed_with_supervisor, by_rank};
ghost use Rattle.spa.specs.declared.TheConstants.{MAX_STUDENTS};

use super::Office;
use crate::closing;
use office_model::Placement;
use spa::RANKS;

impl Office {
    /// Returns the placements of all rounds, by the students' codes.
    pub fn placements(&self) -> &[Placement]
        ensures all { let o = self.now in result.now ≡ o.placements }
        ensures fit { IsFit self.now }
    {
        self.placements.entries()
    }

    /// Returns how many students all rounds placed with a supervisor: at most `spa::MAX_STUDENTS`.
    pub(crate) fn placed_with_supervisor(&self, code: &str) -> u32
        ensures { result ≡ placed_with_supervisor self.now code.now }
    {
        closing::placed_with_supervisor(&self.projects, self.placements.entries(), code) as u32
    }

    /// Returns how many students all rounds placed in a project: at most `spa::MAX_STUDENTS`.
    pub(crate) fn placed_in_project(&self, code: &str) -> u32
        ensures { result ≡ placed_in_project self.now code.now }
    {
        closing::placed_in_project(self.placements.entries(), code) as u32
    }
}

/// Returns how many of the placements a round made.
pub(crate) fn placed_by(placements: &[Placement], round: u32) -> usize
    ensures { result ≡ count_by (λ p. p.round == round) placements.now }
{
    placements
        .iter()
        .filter(|placement| placement.round == round)
        .count()
}

/// Returns how many of them have a rank.
fn placed_at(placements: &[Placement], round: u32, rank: u32) -> usize
    ensures { result ≡ count_by (λ p. (p.round == round) && (p.rank == rank)) placements.now }
{
    placements
        .iter()
        .filter(|placement| placement.round == round && placement.rank == rank)
        .count()
}

/// Returns how many of them have rank 1 and so on.
pub(crate) fn ranked(placements: &[Placement], round: u32) -> [u32; RANKS]
    requires few { length placements.now ≤ MAX_STUDENTS }
    ensures { result ≡ by_rank (λ k. count_by (λ p. (p.round == round) && (p.rank == k + 1)) placements.now) }
{
    let mut counts = [0; RANKS];
    for k in 0..RANKS {
        counts[k] = placed_at(placements, round, k as u32 + 1) as u32;
    }
    counts
}
