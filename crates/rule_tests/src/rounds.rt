//! Worked rounds and audits.

use crate::rolls_of::{instance, places};
use solver::{Audit, audit, solve};
use spa::{Aim, Instance, Matching, RANKS, profile};
use std::alloc::Global;
use std::rt::HostRuntime;
use std::test::Fail;
use testing::cells::ranks;
use testing::judged::holds;
use verdict::check;

/// Returns the profile of a matching, which is one of the instance.
pub(crate) fn profile_of(instance: &Instance, matching: &Matching) -> Result<[u32; RANKS], Fail> {
    holds(matching.fault(instance).is_none(), "a matching")?;
    Ok(profile(instance, matching))
}

type Round = (
    &'static str,
    &'static str,
    &'static str,
    &'static str,
    &'static [u32],
);

// Supervisors, projects and students; then the places of the one best matching, and how many have the first ranks, worked out by hand.
#[rattlefmt::skip]
static ROUNDS: [Round; 6] = [
    ("L:5",     "P:L:1 Q:L:1 Z:L:0",                 "A:P:Q C:Z:P",       "22", &[0, 2]),
    ("L:5",     "P:L:1 Q:L:1",                       "A:P:Q B:Q:P",       "11", &[2]),
    ("L:5",     "U:L:1 V:L:1 X:L:1 Y:L:0 Z:L:0",     "A:X:V C:Z:X:Y:U",   "14", &[1, 0, 0, 1]),
    ("K:1 L:1", "P:L:1 Q:L:1 R:K:1",                 "A:P B:Q:R",         "12", &[1, 1]),
    ("L:5",     "P:L:1",                             "",                  "",   &[]),
    ("L:0",     "P:L:1",                             "A:P",               "-",  &[]),
];

/// Compares the profile of what is solved, and checks it.
fn compare_solved(
    alloc: Global,
    rolls: (&str, &str, &str),
    want: &[u32],
) -> Result<Matching, Fail> {
    let instance = instance(alloc, rolls.0, rolls.1, rolls.2)?;
    let solved = solve(alloc, &instance, Aim::Greedy)?;
    let counts = profile_of(&instance, &solved.matching)?;
    holds(counts == ranks(want), rolls.2)?;
    let is_best = check(&instance, Aim::Greedy, &solved.matching, &solved.prices).is_ok();
    holds(is_best, rolls.2)?;
    Ok(solved.matching)
}

/// Compares what is solved with each row.
fn compare_rounds(alloc: Global, rows: &[Round]) -> Result<(), Fail> {
    for (supervisors, projects, students, want, counts) in rows {
        let found = compare_solved(alloc, (supervisors, projects, students), counts)?;
        let want = places(alloc, want)?;
        holds(found.places == want.places, students)?;
    }
    Ok(())
}

#[test]
fn worked_rounds_are_solved(rt: HostRuntime) -> Result<(), Fail> {
    compare_rounds(rt.alloc(), ROUNDS.as_slice())
}

/// Returns the places of a better matching, if an audit has one.
fn better(alloc: Global, instance: &Instance, text: &str) -> Result<Option<Vec<Option<u8>>>, Fail> {
    let matching = places(alloc, text)?;
    holds(matching.fault(instance).is_none(), text)?;
    match audit(alloc, instance, Aim::Greedy, &matching)? {
        Audit::Better(better) => Ok(Some(better.places)),
        Audit::Best => Ok(None),
    }
}

#[test]
fn an_audit_shows_a_better_matching(rt: HostRuntime) -> Result<(), Fail> {
    let instance = instance(rt.alloc(), "L:5", "P:L:1 Q:L:1", "A:P:Q B:Q:P")?;
    let best = places(rt.alloc(), "11")?;
    let shown = better(rt.alloc(), &instance, "22")?;
    holds(shown == Some(best.places), "a worse matching")?;
    let none = better(rt.alloc(), &instance, "11")?;
    holds(none.is_none(), "nothing is better")
}
