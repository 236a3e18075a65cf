//! The instance of a round, and the closing of the open one.

ghost use Rattle.std.specs.Prelude.{◌≡◌, IfOk, OnErr, IsTrue};
ghost use Rattle.office.specs.Common.{round_is_open, IsClosed};
ghost use Rattle.spa.specs.Named.{IsFit, instance_of};
ghost use Rattle.spa.specs.Coded.{taken};
ghost use Rattle.office_model.specs.Instances.{instance_left, instance_of_round, round_instance};
ghost use Rattle.office_model.specs.Counted.{count_in, count_with};
ghost use Rattle.office.specs.closing.Places.{ArePlacesOf};
ghost use Rattle.office.specs.closing.Changes as spec;

use super::Office;
use super::placed::ranked;
use crate::closing::{close_changes, placements_after, placements_of, round_instance};
use office_model::{Done, Reply};
use spa::{Instance, Matching};
use std::alloc::AllocError;

impl Office {
    /// Returns the instance of a round: the supervisors and projects with what the rounds up to one left of their quotas, or all rounds
    /// where none is named, and the students with a list in it.
    fn instance_left(&self, up_to: Option<u32>, round: u32) -> Result<Instance, AllocError>
        ensures instance { let o = self.now in IfOk result (λ instance. instance_of instance ≡ instance_left (count_with up_to o.projects o.placements) (count_in up_to o.placements) o round) }
        ensures fit { IfOk result IsFit }
    {
        round_instance(
            self.alloc,
            up_to,
            self.supervisors.entries(),
            &self.projects,
            self.placements.entries(),
            self.lists(round),
        )
    }

    /// Returns the instance of a round, open or closed: the supervisors and projects with what the rounds before it left of their
    /// quotas, and the students with a list in it. An `Err` is out of memory.
    pub fn instance_of_round(&self, round: u32) -> Result<Instance, AllocError>
        ensures instance { IfOk result (λ instance. instance_of instance ≡ instance_of_round self.now round) }
    {
        self.instance_left(Some(round.saturating_sub(1)), round)
    }

    /// Returns the instance of the open round: the supervisors and projects with what is left of their quotas, and the students
    /// with a list in it. An `Err` is out of memory.
    pub fn instance(&self) -> Result<Instance, AllocError>
        requires open { IsTrue (round_is_open self.now) }
        ensures instance { IfOk result (λ instance. instance_of instance ≡ round_instance self.now) }
        ensures fit { IfOk result IsFit }
    {
        self.instance_left(None, self.last_round())
    }

    /// Closes the open round with a matching of its instance. Out of memory the office stays as it was.
    #[tactic(auto, using(crate::proofs::closing::PlacesAreRanks::within_lists, crate::proofs::closing::PlacesAreRanks::placed_is_kept))]
    pub fn close(&mut self, matching: &Matching) -> Result<Done, AllocError>
        requires open { IsTrue (round_is_open self.old) }
        requires matching { ArePlacesOf (round_instance self.old) matching.now.places.items }
        ensures ok { IfOk result (IsClosed (taken (round_instance self.old).students matching.now.places.items) self.old self.new) }
        ensures changes { IfOk result (λ done. let changes = done.changes in changes.items ≡ spec.close_changes (taken (round_instance self.old).students matching.now.places.items) self.old) }
        ensures err { OnErr result (self.new ≡ self.old) }
    {
        let round = self.last_round();
        let placed = placements_of(self.alloc, round, self.lists(round), &matching.places)?;
        let reply = Reply::Closed {
            round,
            size: placed.len() as u32,
            profile: ranked(&placed, round),
        };
        let changes = close_changes(self.alloc, round, &placed)?;
        let placements = placements_after(self.alloc, &self.placements, placed)?;
        let mut last = self.last()?;
        last.is_open = false;
        self.rounds.put(last)?;
        self.placements = placements;
        Ok(Done { reply, changes })
    }
}
