//! A session: students are admitted one by one, and the best matching of those admitted is always at hand.
#![tactic(auto)]

ghost use Rattle.std.specs.Prelude.{◌≡◌, ◌≢◌, ℕ, ◌<◌, ◌≤◌, List, length, slice_index, All, AllPairs, IfOk, OnErr};
ghost use Rattle.spa.specs.declared.TheConstants.{MAX_SUPERVISORS, MAX_PROJECTS, MAX_STUDENTS, MAX_QUOTA, RANKS};
ghost use Rattle.spa.specs.declared.aim.Aim.{Aim};
ghost use Rattle.spa.specs.Matching.{Pair, IsBest, profile};
ghost use Rattle.spa.specs.Matched.{pairs};
ghost use Rattle.network.specs.Seen.{shape_of};
ghost use Rattle.solver.specs.SessionState.{nobody, IsAdmitted, ReturnsIfPlaced};
ghost use Rattle.solver.specs.Inside.Kept.{IsNetworkKept};

use crate::worths::admit_weighed;
use network::{Admitted, Network};
use spa::{Aim, Lex, RANKS};
use std::alloc::{AllocError, Global};
use std::marker::Model;

/// Returns how many students have a place.
fn placed(network: &Network<Lex>, students: usize) -> u32
    requires { (aim : Aim) × IsNetworkKept aim network.now students }
    ensures count { result ≡ length (pairs (shape_of network.now) network.now.places) }
    ensures few { result ≤ students }
{
    let mut placed = 0;
    for student in 0..students {
        if let Some(_) = network.place_of(student) {
            placed += 1;
        }
    }
    placed
}

/// Returns how many students have place 1 of their lists and so on.
fn ranked(network: &Network<Lex>, students: usize) -> [u32; RANKS]
    requires { (aim : Aim) × IsNetworkKept aim network.now students }
    ensures profile { (k : ℕ) → k < RANKS → slice_index result k ≡ profile (shape_of network.now) (pairs (shape_of network.now) network.now.places) k }
    ensures few { (k : ℕ) → k < RANKS → slice_index result k ≤ students }
    ensures whole { length result ≡ RANKS }
{
    let mut counts = [0; RANKS];
    for student in 0..students {
        if let Some(place) = network.place_of(student) {
            counts[place - 1] += 1;
        }
    }
    counts
}

/// Rolls, and the students admitted so far, with a matching of their lists that is best by the aim of the session.
#[derive(Drop)]
pub struct Session {
    aim: Aim,
    network: Network<Lex>,
    students: usize,
    // Room for a list with its weights, so that an admission asks for none.
    entries: Vec<(usize, Lex)>,
}

impl Model for Session {
    ghost use Rattle.solver.specs.SessionState.{SessionState};
    ghost use Rattle.solver.specs.Kept.{session_of};
    ghost use Rattle.solver.specs.Inside.Kept.{IsNetworkKept};

    ghost Value = { SessionState };

    ghost view = { λ s. session_of s.aim s.network };

    ghost invariant = { λ s. IsNetworkKept s.aim s.network s.students };
}

impl Session {
    /// Starts the session of supervisors with their quotas, and of projects with supervisor, by position, and quota, whose matchings are
    /// best by an aim. Nobody is admitted yet. An `Err` is out of memory.
    pub fn start(
        alloc: Global,
        supervisors: &[u32],
        projects: &[(usize, u32)],
        aim: Aim,
    ) -> Result<Session, AllocError>
        requires few_supervisors { length supervisors.now ≤ MAX_SUPERVISORS }
        requires few_projects { length projects.now ≤ MAX_PROJECTS }
        requires offered { All (λ p. p.0 < length supervisors.now) projects.now }
        requires supervisor_quotas { All (λ q. q ≤ MAX_QUOTA) supervisors.now }
        requires project_quotas { All (λ p. p.1 ≤ MAX_QUOTA) projects.now }
        ensures aim { IfOk result (λ s. s.aim ≡ aim) }
        ensures shape { IfOk result (λ s. s.shape ≡ nobody supervisors.now projects.now) }
        ensures steps { IfOk result (λ s. s.steps ≡ 0) }
    {
        let network = Network::start(alloc, supervisors, projects)?;
        let entries = Vec::with_capacity(alloc, RANKS)?;
        Ok(Session {
            aim,
            network,
            students: 0,
            entries,
        })
    }

    /// Admits one more student, with a list of projects by position, first choice first. After an `Err`, which is out of memory, nobody was
    /// admitted and nothing has changed.
    pub fn admit(&mut self, list: &[usize]) -> Result<Admitted, AllocError>
        requires few { length self.old.shape.students < MAX_STUDENTS }
        requires some { 1 ≤ length list.now }
        requires short { length list.now ≤ RANKS }
        requires known { All (λ p. p < length self.old.shape.projects) list.now }
        requires distinct { AllPairs (λ p q. p ≢ q) list.now }
        ensures admitted { IfOk result (λ a. IsAdmitted self.old self.new list.now a.relaxations) }
        ensures placed { IfOk result (λ a. ReturnsIfPlaced self.new (length self.old.shape.students) a.placed) }
        ensures memory { OnErr result (self.new ≡ self.old) }
    {
        let admitted = admit_weighed(self.aim, &mut self.network, &mut self.entries, list)?;
        self.students += 1;
        Ok(admitted)
    }

    /// Returns how many pairs a best matching of the students admitted so far has. Allocates nothing.
    pub fn size(&self) -> u32
        ensures size { (M : List Pair) → IsBest self.now.aim self.now.shape M → result ≡ length M }
        ensures few { result ≤ MAX_STUDENTS }

        // There is one: no matching has more pairs, and none with as many has a better profile by the session's aim.
        ensures matched { (M : List Pair) × IsBest self.now.aim self.now.shape M }
    {
        placed(&self.network, self.students)
    }

    /// Returns how many pairs of it have rank 1 and so on. Allocates nothing.
    pub fn profile(&self) -> [u32; RANKS]
        ensures profile { (M : List Pair) → IsBest self.now.aim self.now.shape M → (k : ℕ) → k < RANKS → slice_index result k ≡ profile self.now.shape M k }
        ensures few { (k : ℕ) → k < RANKS → slice_index result k ≤ MAX_STUDENTS }
        ensures whole { length result ≡ RANKS }
    {
        ranked(&self.network, self.students)
    }

    /// Returns the relaxations since the start. Allocates nothing.
    pub fn steps(&self) -> u64
        ensures { result ≡ self.now.steps }
    {
        self.network.steps()
    }
}
