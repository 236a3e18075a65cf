//! Worked admissions to a network; the last test counts what this search compares.

ghost use Rattle.std.specs.Prelude.{◌≡◌, ◌+◌, ◌<◌, ◌≤◌, length, IsTrue, All};
ghost use Rattle.spa.specs.declared.TheConstants.{MAX_SUPERVISORS, MAX_PROJECTS, MAX_QUOTA};

use network::{Admitted, Network};
use spa::{COMPONENTS, Lex, MAX_PROJECTS, MAX_QUOTA, MAX_STUDENTS, MAX_SUPERVISORS, RANKS, Worth};
use std::alloc::Global;
use std::marker::Model;
use std::rt::HostRuntime;
use std::test::Fail;
use testing::judged::holds;

/// Whether the rolls are within the limits, and each project's supervisor is known.
fn are_rolls(supervisors: &[u32], projects: &[(usize, u32)]) -> bool
    ensures offered { IsTrue result → All (λ p. p.0 < length supervisors.now) projects.now }
    ensures supervisor_quotas { IsTrue result → All (λ q. q ≤ MAX_QUOTA) supervisors.now }
    ensures project_quotas { IsTrue result → All (λ p. p.1 ≤ MAX_QUOTA) projects.now }
    ensures few_supervisors { IsTrue result → length supervisors.now ≤ MAX_SUPERVISORS }
    ensures few_projects { IsTrue result → length projects.now ≤ MAX_PROJECTS }
{
    supervisors.len() <= MAX_SUPERVISORS
        && projects.len() <= MAX_PROJECTS
        && are_quotas(supervisors)
        && are_offered(projects, supervisors.len())
}

/// Whether no quota is too large.
fn are_quotas(quotas: &[u32]) -> bool
    ensures { IsTrue result → All (λ q. q ≤ MAX_QUOTA) quotas.now }
{
    for i in 0..quotas.len() {
        if quotas[i] > MAX_QUOTA {
            return false;
        }
    }
    true
}

/// Whether each project has a known supervisor, and no quota is too large.
fn are_offered(projects: &[(usize, u32)], supervisors: usize) -> bool
    ensures offered { IsTrue result → All (λ p. p.0 < supervisors) projects.now }
    ensures quotas { IsTrue result → All (λ p. p.1 ≤ MAX_QUOTA) projects.now }
{
    for i in 0..projects.len() {
        let (supervisor, quota) = projects[i];
        if supervisor >= supervisors || quota > MAX_QUOTA {
            return false;
        }
    }
    true
}

/// Whether each entry names a known project with a small worth.
fn is_list<G: Worth>(list: &[(usize, G)], projects: usize) -> bool
    ensures known { IsTrue result → All (λ e. e.0 < projects) list.now }
    ensures small { IsTrue result → All (λ e. G.ops.span e.1 ≤ 1) list.now }
{
    for i in 0..list.len() {
        let (project, worth) = list[i];
        if project >= projects || worth.span() > 1 {
            return false;
        }
    }
    true
}

/// Returns the worth of a pair of this rank, from 1.
fn weight(rank: usize) -> Lex {
    let mut places = [0; COMPONENTS];
    places[0] = 1;
    if rank < COMPONENTS {
        places[rank] = 1;
    }
    Lex(places)
}

/// A network with the numbers of its projects and students.
#[derive(Drop)]
pub(crate) struct Trial<G: Worth> {
    network: Network<G>,
    projects: usize,
    students: usize,
}

impl<G: Worth> Model for Trial<G> {
    ghost use Rattle.std.specs.Prelude.{length, ◌≡◌};
    ghost use Rattle.network.specs.Seen.{Seen};

    ghost Value = { Seen G };

    ghost view = { λ t. t.network };

    ghost invariant = { λ t. (length t.network.projects ≡ t.projects) × (length t.network.lists ≡ t.students) };
}

impl<G: Worth> Trial<G> {
    pub(crate) fn start(
        alloc: Global,
        supervisors: &[u32],
        projects: &[(usize, u32)],
    ) -> Result<Trial<G>, Fail> {
        holds(are_rolls(supervisors, projects), "rolls")?;
        let network = Network::start(alloc, supervisors, projects)?;
        Ok(Trial {
            network,
            projects: projects.len(),
            students: 0,
        })
    }

    /// Admits a student with this list.
    pub(crate) fn admit(&mut self, list: &[(usize, G)]) -> Result<Admitted, Fail> {
        let is_next = self.students < MAX_STUDENTS && list.len() <= RANKS;
        holds(is_next && is_list(list, self.projects), "a list")?;
        let admitted = self.network.admit(list)?;
        self.students += 1;
        Ok(admitted)
    }

    /// Returns the rank of the student's project, which is its place, or 0.
    pub(crate) fn rank_of(&self, student: usize) -> Result<usize, Fail> {
        holds(student < self.students, "a student")?;
        Ok(self.network.place_of(student).unwrap_or(0))
    }

    /// Returns how many students have a place, and the sum of their ranks.
    fn totals(&self) -> Result<(i64, usize), Fail> {
        let mut placed: i64 = 0;
        let mut ranks: usize = 0;
        for student in 0..self.students {
            let rank = self.rank_of(student)?;
            if rank > 0 {
                placed = placed.wrapping_add(1);
            }
            ranks = ranks.wrapping_add(rank);
        }
        Ok((placed, ranks))
    }
}

/// Returns a list with the worth of each rank.
fn ranked(alloc: Global, projects: &[usize]) -> Result<Vec<(usize, Lex)>, Fail> {
    let mut list = Vec::new(alloc);
    for before in 0..projects.len() {
        list.push((projects[before], weight(before.saturating_add(1))))?;
    }
    Ok(list)
}

/// Returns the sizes of all prices added up, each as often as its quota says, and a student's once.
fn paid(trial: &Trial<Lex>, quotas: &[u32], offers: &[(usize, u32)]) -> Result<i64, Fail> {
    let (students, projects, supervisors) = trial.network.prices()?;
    let mut sum: i64 = 0;
    for price in &students {
        sum = sum.wrapping_add(price.0[0]);
    }
    for (price, (_supervisor, quota)) in projects.iter().zip(offers.iter()) {
        sum = sum.wrapping_add(price.0[0].wrapping_mul(i64::from(*quota)));
    }
    for (price, quota) in supervisors.iter().zip(quotas.iter()) {
        sum = sum.wrapping_add(price.0[0].wrapping_mul(i64::from(*quota)));
    }
    Ok(sum)
}

/// A student's list; how many have a place once it is admitted, and the sum of their ranks; and the least and the most
/// relaxations that its admission may make.
type Admission = (&'static [usize], i64, usize, (u64, u64));

/// As many relaxations as may be, and at least one.
const SOME: (u64, u64) = (1, u64::MAX);

/// The quotas of supervisors; the supervisor and the quota of each project; and students in order.
type Case = (
    &'static [u32],
    &'static [(usize, u32)],
    &'static [Admission],
);

/// Makes an admission, and compares what comes of it.
fn compare_admission(
    alloc: Global,
    trial: &mut Trial<Lex>,
    (list, placed, ranks, (least, most)): Admission,
) -> Result<(), Fail> {
    let student = trial.students;
    let before = trial.network.steps();
    let admitted = trial.admit(&ranked(alloc, list)?)?;
    holds(trial.totals()? == (placed, ranks), "the places")?;
    let has_place = trial.rank_of(student)? > 0;
    holds(admitted.placed == has_place, "the new student's place")?;
    let count = admitted.relaxations;
    let steps = before.wrapping_add(count);
    let is_counted = least <= count && count <= most;
    holds(is_counted && trial.network.steps() == steps, "the count")
}

/// Makes the admissions of each case, and compares what comes of them, and that the prices pay for the places after each.
fn compare_cases(alloc: Global, cases: &[Case]) -> Result<(), Fail> {
    for (quotas, offers, admissions) in cases {
        let mut trial = Trial::start(alloc, quotas, offers)?;
        holds(trial.network.steps() == 0, "no steps")?;
        for admission in *admissions {
            compare_admission(alloc, &mut trial, *admission)?;
            let paid = paid(&trial, quotas, offers)?;
            holds(paid == admission.1, "what is paid")?;
        }
    }
    Ok(())
}

// The worked example: with A there are 6 nodes and 11 arcs, with C 7 and 14. One in which a student makes room at the only place of a
// supervisor, and the last gets none. Then each quota of one supervisor and two projects, one after another.
#[rattlefmt::skip]
static CASES: [Case; 10] = [
    (&[5],    &[(0, 1), (0, 1), (0, 0)], &[(&[0, 1], 1, 1, (1, 77)), (&[2, 0], 2, 4, (1, 112))]),
    (&[1, 1], &[(0, 1), (0, 1), (1, 1)], &[(&[0, 2], 1, 1, SOME), (&[1], 2, 3, SOME), (&[0, 1, 2], 2, 3, SOME)]),
    (&[2],    &[(0, 1), (0, 1)],         &[(&[0, 1], 1, 1, SOME), (&[1, 0], 2, 2, SOME)]),
    (&[2],    &[(0, 1), (0, 1)],         &[(&[0, 1], 1, 1, SOME), (&[0, 1], 2, 3, SOME)]),
    (&[2],    &[(0, 2), (0, 1)],         &[(&[0, 1], 1, 1, SOME), (&[0, 1], 2, 2, SOME)]),
    (&[2],    &[(0, 1), (0, 0)],         &[(&[0, 1], 1, 1, SOME), (&[0, 1], 1, 1, SOME)]),
    (&[2],    &[(0, 0), (0, 1)],         &[(&[0, 1], 1, 2, SOME), (&[0, 1], 1, 2, SOME)]),
    (&[1],    &[(0, 1), (0, 1)],         &[(&[0, 1], 1, 1, SOME), (&[1, 0], 1, 1, SOME)]),
    (&[1],    &[(0, 2), (0, 2)],         &[(&[1, 0], 1, 1, SOME), (&[1, 0], 1, 1, SOME)]),
    (&[0],    &[(0, 1), (0, 1)],         &[(&[0, 1], 0, 0, SOME), (&[1, 0], 0, 0, SOME)]),
];

#[test]
fn admissions_place_as_many_as_can_be(rt: HostRuntime) -> Result<(), Fail> {
    compare_cases(rt.alloc(), CASES.as_slice())
}

// How much this search compares, counted by hand. Another search that is right may compare less or more, and then these numbers
// change. In the first, A lists P, Q, and then C lists Z, P. The search compares, of A, that P is worth its cost, then P, Q and the
// sink, the supervisor from P, and the sink from there; of C that Z is worth its cost, then Z, P and the sink, from P what A could
// have instead (P, Q and the sink), the supervisor from Q, and the sink from there. In the second, each time a gain by one
// comparison; then A with P, R, the sink, L, and from L with the sink; B with Q, the sink, L, from L with P and Q, from P with P, R
// and the sink, with M and the sink; the third with P, Q, R, the sink, L, P and Q, with Q and the sink for B, and with P, R and the
// sink for A.
#[rattlefmt::skip]
static COUNTED: [Case; 2] = [
    (&[5],    &[(0, 1), (0, 1), (0, 0)], &[(&[0, 1], 1, 1, (6, 6)), (&[2, 0], 2, 4, (9, 9))]),
    (&[1, 1], &[(0, 1), (0, 1), (1, 1)], &[(&[0, 2], 1, 1, (6, 6)), (&[1], 2, 3, (11, 11)), (&[0, 1, 2], 2, 3, (13, 13))]),
];

#[test]
fn this_search_compares_so_much(rt: HostRuntime) -> Result<(), Fail> {
    compare_cases(rt.alloc(), COUNTED.as_slice())
}
