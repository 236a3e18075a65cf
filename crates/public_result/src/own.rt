//! What a student checks, with the own list.
#![tactic(auto)]

ghost use Rattle.std.specs.Prelude.{◌≡◌, ◌≢◌, ℕ, ◌<◌, ◌≤◌, ◌↔◌, AllPairs, All, Contains, IsTrue, IsOk, IfErr, MatchOption, length, slice_index, slice_index_or, Option, None};
ghost use Rattle.spa.specs.Order.{order};
ghost use Rattle.spa.specs.Row.{at};
ghost use Rattle.spa.specs.Shape.{IsPlaceOf, choice_at};
ghost use Rattle.spa.specs.Matching.{rank_in};
ghost use Rattle.public_result.specs.Posted.{IsContent, IsFirstBetter, IsFirstOwnFailure, IsList, IsListed, IsRow, IsKnown, HasPrices, holding, worth};

use crate::posted::Posted;
use crate::prices::left_of;
use spa::{Aim, COMPONENTS, RANKS, precedes};
use verdict::{is_below_zero, nothing};

/// The first condition of a student's own check that fails.
#[derive(Clone, Copy, PartialEq, Eq, Drop)]
pub enum OwnFault {
    /// The list is not 1 to 12 distinct projects that are posted.
    List,
    /// The project that the student is assigned does not stand in the list.
    NotListed,
    /// What the student is assigned is worth less than going without, at the prices.
    Dear,
    /// The project at this place of the list is worth more than what the student is assigned, at the prices.
    Better(usize),
}

/// Whether each project of a list is below a count of projects.
fn are_posted(list: &[usize], projects: usize) -> bool
    ensures { IsTrue result ↔ All (λ p. p < projects) list.now }
{
    list.iter().all(|project| *project < projects)
}

/// Returns the place of a project in a list, from 1, which is its rank.
pub fn place_of(list: &[usize], project: usize) -> Option<usize>
    ensures { MatchOption result (¬ Contains list.now project) (λ k. IsPlaceOf list.now k × Contains list.now project × (rank_in list.now project ≡ k)) }
{
    for before in 0..list.len() {
        if list[before] == project {
            return Some(before + 1);
        }
    }
    None
}

/// Whether the project at this position of a list stands before it too.
fn stands_before(list: &[usize], position: usize) -> bool
    requires { position < length list.now }
    ensures { IsTrue result ↔ ((k : ℕ) × (k < position) × (slice_index list.now k ≡ slice_index list.now position)) }
{
    for before in 0..position {
        if list[before] == list[position] {
            return true;
        }
    }
    false
}

/// Whether no project stands twice in a list.
fn are_distinct(list: &[usize]) -> bool
    ensures { IsTrue result ↔ AllPairs (λ p q. p ≢ q) list.now }
{
    for position in 0..list.len() {
        if stands_before(list, position) {
            return false;
        }
    }
    true
}

/// Whether a list has 1 to 12 distinct projects that are posted.
fn is_list(posted: &Posted, list: &[usize]) -> bool
    ensures { IsTrue result ↔ IsList posted.now list.now }
{
    !list.is_empty()
        && list.len() <= RANKS
        && are_posted(list, posted.projects.len())
        && are_distinct(list)
}

/// Returns what a project at this rank is worth at the prices.
fn worth_of(posted: &Posted, project: usize, rank: usize) -> [i64; COMPONENTS]
    requires known { IsKnown posted.now }
    requires prices { HasPrices posted.now }
    requires project { project < length posted.now.projects.items }
    requires first { 1 ≤ rank }
    requires last { rank < COMPONENTS }
    ensures { IsRow result (worth posted.now rank project) }
{
    let supervisor = posted.projects[project].0;
    left_of(
        rank,
        &posted.project_prices[project],
        &posted.supervisor_prices[supervisor],
    )
}

/// Returns what a student with this list has by what is assigned, if it stands in the list.
fn holding_of(posted: &Posted, list: &[usize], project: Option<usize>) -> Option<[i64; COMPONENTS]>
    requires known { IsKnown posted.now }
    requires prices { HasPrices posted.now }
    requires list { IsList posted.now list.now }
    ensures { MatchOption result (¬ IsListed list.now project) (λ has. IsListed list.now project × IsRow has (holding posted.now list.now project)) }
{
    let Some(project) = project else {
        return Some(nothing());
    };
    let rank = place_of(list, project)?;
    Some(worth_of(posted, project, rank))
}

/// Returns the first place of the list whose project is worth more than this.
fn first_better(posted: &Posted, aim: Aim, list: &[usize], has: &[i64; COMPONENTS]) -> Option<usize>
    requires known { IsKnown posted.now }
    requires prices { HasPrices posted.now }
    requires list { IsList posted.now list.now }
    ensures { MatchOption result ((k : ℕ) → IsPlaceOf list.now k → ¬ order aim (at has.now) (worth posted.now k (choice_at list.now k)))
        (λ k. IsFirstBetter (order aim) posted.now list.now (at has.now) k) }
{
    for before in 0..list.len() {
        let place = before + 1;
        if precedes(aim, has, &worth_of(posted, list[before], place)) {
            return Some(place);
        }
    }
    None
}

/// Checks that what a student is assigned is the best of the own list and of going without, at the prices.
fn check_assigned(
    posted: &Posted,
    aim: Aim,
    list: &[usize],
    project: Option<usize>,
) -> Result<(), OwnFault>
    requires known { IsKnown posted.now }
    requires prices { HasPrices posted.now }
    ensures accepted { IsOk result ↔ IsContent (order aim) posted.now list.now project }
    ensures failed { IfErr result (λ fault. IsFirstOwnFailure (order aim) posted.now list.now project fault) }
{
    if !is_list(posted, list) {
        return Err(OwnFault::List);
    }
    let Some(has) = holding_of(posted, list, project) else {
        return Err(OwnFault::NotListed);
    };
    if is_below_zero(aim, &has) {
        return Err(OwnFault::Dear);
    }
    if let Some(place) = first_better(posted, aim, list, &has) {
        return Err(OwnFault::Better(place));
    }
    Ok(())
}

/// Checks what is posted of a student with the student's own list: that the project stands in it, and that at the prices neither going
/// without nor another project of the list is worth more. Allocates nothing. An `Err` is the first of these that does not hold.
pub fn check_own(posted: &Posted, aim: Aim, student: usize, list: &[usize]) -> Result<(), OwnFault>
    requires known { IsKnown posted.now }
    requires prices { HasPrices posted.now }
    requires student { student < length posted.now.students.items }
    ensures accepted { IsOk result ↔ IsContent (order aim) posted.now list.now (slice_index_or posted.now.students.items student None) }
    ensures failed { IfErr result (λ fault. IsFirstOwnFailure (order aim) posted.now list.now (slice_index_or posted.now.students.items student None) fault) }
{
    check_assigned(posted, aim, list, posted.students[student])
}
