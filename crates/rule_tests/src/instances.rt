//! Instances, matchings and profiles, worked out by hand.

use crate::rolls_of::{instance, places, projects, students, supervisors};
use spa::{Instance, InstanceFault, MatchFault, RANKS, Roll, profile};
use std::alloc::Global;
use std::rt::HostRuntime;
use std::test::Fail;
use testing::cells::ranks;
use testing::judged::holds;

/// Rolls, and the first fault of them.
#[rattlefmt::skip]
static FAULTS: [(&str, &str, &str, InstanceFault); 13] = [
    ("L:501",     "",                  "",                      InstanceFault::Limit),
    ("L:5 L:501", "P:N:1",             "A A",                   InstanceFault::Limit),
    ("L:5",       "P:L:501",           "",                      InstanceFault::Limit),
    ("L:5 K:1 L:1", "P:N:1",           "",                      InstanceFault::RepeatedCode(Roll::Supervisors, 2)),
    ("L:5",       "P:L:1 P:N:1",       "A:P",                   InstanceFault::RepeatedCode(Roll::Projects, 1)),
    ("L:5",       "P:N:1",             "A:P A:P",               InstanceFault::RepeatedCode(Roll::Students, 1)),
    ("L:5",       "P:L:1 Q:N:1",       "A",                     InstanceFault::UnknownSupervisor(1)),
    ("L:5",       "P:L:1",             "A:P B",                 InstanceFault::ListLength(1)),
    ("L:5",       "P:L:1",             "A:P:N",                 InstanceFault::UnknownProject(0, 2)),
    ("L:5",       "P:L:1",             "A:P B:P:N:P",           InstanceFault::UnknownProject(1, 2)),
    ("L:5",       "P:L:1",             "A:P:P",                 InstanceFault::RepeatedProject(0, 2)),
    ("L:5",       "P:L:1 Q:L:1",       "A:P B:Q:P:Q C",         InstanceFault::RepeatedProject(1, 3)),
    ("L:5",       "P:L:1",             "A:N B",                 InstanceFault::UnknownProject(0, 1)),
];

/// Returns the fault that these rolls have, if any.
fn fault_of(
    alloc: Global,
    supervisor_roll: &str,
    project_roll: &str,
    student_roll: &str,
) -> Result<Option<InstanceFault>, Fail> {
    let made = Instance::new(
        alloc,
        supervisors(alloc, supervisor_roll)?,
        projects(alloc, project_roll)?,
        students(alloc, student_roll)?,
    );
    Ok(made.err())
}

#[test]
fn the_first_fault_of_rolls_is_named(rt: HostRuntime) -> Result<(), Fail> {
    for (supervisor_roll, project_roll, student_roll, want) in FAULTS.as_slice() {
        let fault = fault_of(rt.alloc(), supervisor_roll, project_roll, student_roll)?;
        holds(fault == Some(*want), student_roll)?;
    }
    Ok(())
}

#[test]
fn a_list_has_no_more_choices_than_there_are_ranks(rt: HostRuntime) -> Result<(), Fail> {
    let mut roll = String::from_str(rt.alloc(), "A:P")?;
    for _ in 0..RANKS {
        roll.push_str(":P")?;
    }
    let fault = fault_of(rt.alloc(), "L:5", "P:L:1", &roll)?;
    holds(fault == Some(InstanceFault::ListLength(0)), &roll)
}

// A lists P; B lists R, P; C lists Z, P, R; D lists R, Q, P. P has quota 2, Q and R have 1, Z has 0; L, who offers P, Q
// and Z, has 2, and K, who offers R, has 1. Places, their first fault, and without one their size and how many have the
// first ranks.
#[rattlefmt::skip]
static MATCHINGS: [(&str, Option<MatchFault>, usize, &[u32]); 13] = [
    ("----", None,                                0, &[]),
    ("1---", None,                                1, &[1]),
    ("12--", None,                                2, &[1, 1]),
    ("--3-", None,                                1, &[0, 0, 1]),
    ("11-2", None,                                3, &[2, 1]),
    ("---",  Some(MatchFault::Length),            0, &[]),
    ("-3-4", Some(MatchFault::Place(1)),          0, &[]),
    ("1--0", Some(MatchFault::Place(3)),          0, &[]),
    ("--1-", Some(MatchFault::ProjectOver(3)),    0, &[]),
    ("121-", Some(MatchFault::ProjectOver(3)),    0, &[]),
    ("12-3", Some(MatchFault::ProjectOver(0)),    0, &[]),
    ("-1-1", Some(MatchFault::ProjectOver(2)),    0, &[]),
    ("12-2", Some(MatchFault::SupervisorOver(0)), 0, &[]),
];

/// Compares the fault of each row's places, and where they have none their size and profile.
fn compare_matchings(
    alloc: Global,
    instance: &Instance,
    rows: &[(&'static str, Option<MatchFault>, usize, &'static [u32])],
) -> Result<(), Fail> {
    for (text, want, size, counts) in rows {
        let matching = places(alloc, text)?;
        let fault = matching.fault(instance);
        holds(fault == *want, text)?;
        if fault.is_none() {
            holds(matching.size(instance) == *size, text)?;
            holds(profile(instance, &matching) == ranks(counts), text)?;
        }
    }
    Ok(())
}

#[test]
fn the_first_fault_of_a_matching_is_named(rt: HostRuntime) -> Result<(), Fail> {
    let instance = instance(
        rt.alloc(),
        "L:2 K:1",
        "P:L:2 Q:L:1 R:K:1 Z:L:0",
        "A:P B:R:P C:Z:P:R D:R:Q:P",
    )?;
    compare_matchings(rt.alloc(), &instance, MATCHINGS.as_slice())
}
