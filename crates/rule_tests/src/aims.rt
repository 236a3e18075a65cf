//! Worked rounds by each aim, audits by each, and a search through all matchings of small instances.

use crate::rolls_of::{instance, places};
use crate::rounds::profile_of;
use search::search;
use sha2::{Digest, Sha256};
use solver::{Audit, audit, found_or_admitted, solve};
use spa::{AIMS, Aim, Instance, Matching, RANKS, profile};
use std::alloc::Global;
use std::fmt::Write;
use std::rt::HostRuntime;
use std::test::Fail;
use testing::judged::holds;
use verdict::{accept, check};

type Round = (
    Aim,
    &'static str,
    &'static str,
    &'static str,
    &'static str,
    &'static str,
    bool,
);

// Supervisors, projects and students; then the places of the one matching that is best by the aim, its profile up to the
// last rank that a pair has, worked out by hand, and whether it is best by the other aim too.
#[rattlefmt::skip]
static ROUNDS: [Round; 9] = [
    (Aim::Greedy,   "L:5",     "U:L:1 V:L:1 X:L:1 Y:L:0 Z:L:0", "A:X:V C:Z:X:Y:U",   "14",  "1001", false),
    (Aim::Generous, "L:5",     "U:L:1 V:L:1 X:L:1 Y:L:0 Z:L:0", "A:X:V C:Z:X:Y:U",   "22",  "02",   false),
    (Aim::Greedy,   "L:5",     "P:L:1 Q:L:1 R:L:1",             "A:P B:Q:R C:P:Q:R", "113", "201",  false),
    (Aim::Generous, "L:5",     "P:L:1 Q:L:1 R:L:1",             "A:P B:Q:R C:P:Q:R", "122", "12",   false),
    (Aim::Generous, "L:5",     "P:L:1 Q:L:1",                   "A:P:Q B:Q:P",       "11",  "2",    true),
    (Aim::Generous, "L:5",     "P:L:1 Q:L:1",                   "A:P:Q B:P",         "21",  "11",   true),
    (Aim::Generous, "K:1 L:1", "P:L:1 Q:L:1 R:K:1",             "A:P B:Q:R",         "12",  "11",   true),
    (Aim::Generous, "L:5",     "P:L:1",                         "",                  "",    "",     true),
    (Aim::Generous, "L:0",     "P:L:1",                         "A:P",               "-",   "",     true),
];

/// Returns the aim that is not this one.
fn other(aim: Aim) -> Aim {
    match aim {
        Aim::Greedy => Aim::Generous,
        Aim::Generous => Aim::Greedy,
    }
}

/// Whether these are the counts of a profile that is written up to its last rank, a digit a rank.
fn is_profile(counts: &[u32; RANKS], digits: &str) -> bool {
    for rank in 0..RANKS {
        let want = match digits.as_bytes().get(rank) {
            Some(digit) => digit.wrapping_sub(b'0'),
            None => 0,
        };
        if counts[rank] != u32::from(want) {
            return false;
        }
    }
    true
}

/// Whether an audit by an aim calls the matching best.
fn is_best(
    alloc: Global,
    instance: &Instance,
    aim: Aim,
    matching: &Matching,
) -> Result<bool, Fail> {
    holds(matching.fault(instance).is_none(), "a matching")?;
    match audit(alloc, instance, aim, matching)? {
        Audit::Best => Ok(true),
        Audit::Better(_) => Ok(false),
    }
}

/// Solves a round by an aim, and compares places and profile; the checker accepts the prices by the aim, and by the other
/// only where the matching is best by both.
fn solve_row(alloc: Global, row: &Round) -> Result<(), Fail> {
    let (aim, supervisors, projects, students, want, digits, is_both) = *row;
    let instance = instance(alloc, supervisors, projects, students)?;
    let solved = solve(alloc, &instance, aim)?;
    let want = places(alloc, want)?;
    holds(solved.matching.places == want.places, students)?;
    let counts = profile_of(&instance, &solved.matching)?;
    holds(is_profile(&counts, digits), students)?;
    let is_proved = check(&instance, aim, &solved.matching, &solved.prices).is_ok();
    holds(is_proved, students)?;
    let is_other = check(&instance, other(aim), &solved.matching, &solved.prices).is_ok();
    holds(is_both || !is_other, students)
}

/// Audits the best matching of a round by its aim and by the other.
fn audit_row(alloc: Global, row: &Round) -> Result<(), Fail> {
    let (aim, supervisors, projects, students, best, _, is_both) = *row;
    let instance = instance(alloc, supervisors, projects, students)?;
    let best = places(alloc, best)?;
    let by_its_own = is_best(alloc, &instance, aim, &best)?;
    holds(by_its_own, students)?;
    let by_the_other = is_best(alloc, &instance, other(aim), &best)?;
    holds(by_the_other == is_both, students)
}

#[test]
fn each_aim_has_its_best_matching(rt: HostRuntime) -> Result<(), Fail> {
    for row in ROUNDS.as_slice() {
        solve_row(rt.alloc(), row)?;
        audit_row(rt.alloc(), row)?;
    }
    Ok(())
}

/// Closes a round although what was found is spoiled: prices are missing, so it is not accepted, and the students are
/// admitted one by one.
fn close_spoiled(alloc: Global, row: &Round) -> Result<(), Fail> {
    let (aim, supervisors, projects, students, _, digits, _) = *row;
    let instance = instance(alloc, supervisors, projects, students)?;
    let mut spoiled = solve(alloc, &instance, aim)?;
    spoiled.prices.supervisors.clear();
    let found = accept(&instance, aim, spoiled.matching, spoiled.prices);
    holds(found.is_none(), students)?;
    let solved = found_or_admitted(alloc, &instance, aim, found)?;
    let is_proved = check(&instance, aim, &solved.matching, &solved.prices).is_ok();
    holds(is_proved, students)?;
    let counts = profile_of(&instance, &solved.matching)?;
    holds(is_profile(&counts, digits), students)
}

#[test]
fn a_round_whose_search_is_spoiled_is_closed(rt: HostRuntime) -> Result<(), Fail> {
    for row in ROUNDS.as_slice() {
        close_spoiled(rt.alloc(), row)?;
    }
    Ok(())
}

/// Numbers that look random, of a linear congruence.
#[derive(Drop)]
struct Random(u32);

impl Random {
    fn below(&mut self, n: u32) -> u32 {
        self.0 = self.0.wrapping_mul(1_664_525).wrapping_add(1_013_904_223);
        (self.0 / 65_536) % n.max(1)
    }
}

/// Writes rolls of two supervisors, four projects and four students with up to three choices.
fn small_rolls(alloc: Global, random: &mut Random) -> Result<(String, String, String), Fail> {
    let mut supervisors = String::new(alloc);
    let mut projects = String::new(alloc);
    let mut students = String::new(alloc);
    write!(supervisors, "L0:{} L1:{}", random.below(4), random.below(4))?;
    for p in 0..4u32 {
        write!(projects, "P{p}:L{}:{} ", random.below(2), random.below(3))?;
    }
    for s in 0..4u32 {
        let first = random.below(4);
        write!(students, "S{s}:P{first}")?;
        for more in 0..random.below(3) {
            write!(
                students,
                ":P{}",
                first.wrapping_add(more).wrapping_add(1) % 4
            )?;
        }
        write!(students, " ")?;
    }
    Ok((supervisors, projects, students))
}

/// Returns the same numbers, the last first.
fn backward(counts: &[u32; RANKS]) -> [u32; RANKS] {
    let mut turned = [0; RANKS];
    for rank in 0..RANKS {
        turned[rank] = counts[RANKS - 1 - rank];
    }
    turned
}

/// Returns all numbers added up.
fn sum(counts: &[u32; RANKS]) -> u32 {
    let mut sum: u32 = 0;
    for count in counts {
        sum = sum.wrapping_add(*count);
    }
    sum
}

/// Whether a matching with these counts is better by an aim than one with those.
fn is_better(aim: Aim, counts: &[u32; RANKS], best: &[u32; RANKS]) -> bool {
    if sum(counts) != sum(best) {
        return sum(counts) > sum(best);
    }
    match aim {
        Aim::Greedy => *counts > *best,
        Aim::Generous => backward(counts) < backward(best),
    }
}

/// Returns the places of four students, each a digit of the number to the base four.
fn numbered(alloc: Global, number: u32) -> Result<Matching, Fail> {
    let mut rest = number;
    let mut places = Vec::new(alloc);
    for _student in 0..4 {
        let place = rest % 4;
        places.push(if place == 0 { None } else { Some(place as u8) })?;
        rest /= 4;
    }
    Ok(Matching { places })
}

/// Returns the students in the order of their numbers, with these.
fn by_number(alloc: Global, instance: &Instance) -> Result<Vec<([u8; 32], usize)>, Fail> {
    let mut order = Vec::new(alloc);
    for (student, code) in instance.student_codes().iter().enumerate() {
        order.push((Sha256::digest(code.as_str()), student))?;
    }
    order.sort()?;
    Ok(order)
}

/// Whether the first student whose places differ has the better one here than there.
fn is_drawn_before(order: &[([u8; 32], usize)], here: &[Option<u8>], there: &[Option<u8>]) -> bool {
    for (_, student) in order {
        let place = here.get(*student).copied().flatten().unwrap_or(u8::MAX);
        let other = there.get(*student).copied().flatten().unwrap_or(u8::MAX);
        if place != other {
            return place < other;
        }
    }
    false
}

/// Searches for the matching that an aim and then the lot take, of all matchings, each tried one after another.
fn searched(alloc: Global, instance: &Instance, aim: Aim) -> Result<Matching, Fail> {
    let order = by_number(alloc, instance)?;
    let mut best = numbered(alloc, 0)?;
    let mut most = [0; RANKS];
    for number in 1..256u32 {
        let matching = numbered(alloc, number)?;
        if matching.fault(instance).is_some() {
            continue;
        }
        let counts = profile(instance, &matching);
        let is_first = counts == most && is_drawn_before(&order, &matching.places, &best.places);
        if is_first || is_better(aim, &counts, &most) {
            most = counts;
            best = matching;
        }
    }
    Ok(best)
}

/// Compares what is solved by an aim, in both ways, with what the search finds.
fn compare_searched(alloc: Global, instance: &Instance, aim: Aim, row: &str) -> Result<(), Fail> {
    let found = searched(alloc, instance, aim)?;
    let solved = solve(alloc, instance, aim)?;
    holds(
        solved.matching.places.as_slice() == found.places.as_slice(),
        row,
    )?;
    let admitted = found_or_admitted(alloc, instance, aim, None)?;
    holds(
        admitted.matching.places.as_slice() == found.places.as_slice(),
        row,
    )
}

#[test]
fn a_search_through_all_matchings_finds_none_better(rt: HostRuntime) -> Result<(), Fail> {
    let alloc = rt.alloc();
    let mut random = Random(7);
    for _round in 0..100 {
        let (supervisors, projects, students) = small_rolls(alloc, &mut random)?;
        let instance = instance(alloc, &supervisors, &projects, &students)?;
        for aim in AIMS {
            compare_searched(alloc, &instance, aim, &students)?;
            let is_found = search(alloc, &instance, aim)?.is_some();
            holds(is_found, &students)?;
        }
    }
    Ok(())
}

/// Writes rolls of 100 supervisors, 400 projects and 500 students, who list twelve of them.
fn largest_rolls(alloc: Global, random: &mut Random) -> Result<(String, String, String), Fail> {
    let mut supervisors = String::new(alloc);
    let mut projects = String::new(alloc);
    let mut students = String::new(alloc);
    for l in 0..100u32 {
        write!(supervisors, "L{l}:5 ")?;
    }
    for p in 0..400u32 {
        write!(projects, "P{p}:L{}:{} ", p % 100, random.below(3))?;
    }
    for s in 0..500u32 {
        write!(students, "S{s}")?;
        let step = random.below(30).wrapping_add(1);
        let mut project = random.below(400);
        for _ in 0..RANKS {
            write!(students, ":P{project}")?;
            project = project.wrapping_add(step) % 400;
        }
        write!(students, " ")?;
    }
    Ok((supervisors, projects, students))
}

#[test]
fn a_search_answers_at_the_limits(rt: HostRuntime) -> Result<(), Fail> {
    let alloc = rt.alloc();
    let (supervisors, projects, students) = largest_rolls(alloc, &mut Random(11))?;
    let instance = instance(alloc, &supervisors, &projects, &students)?;
    for aim in AIMS {
        let is_found = search(alloc, &instance, aim)?.is_some();
        holds(is_found, "500 students")?;
    }
    Ok(())
}
