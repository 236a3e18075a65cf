//! The greatest prices of what is assigned. They show least of the lists, and are searched for without proof: the checks judge
//! them.
#![tactic(auto)]

ghost use Rattle.public_result.specs.Posted.{IsKnown};

use crate::own::place_of;
use crate::posted::Posted;
use crate::quotas::{placed_at, placed_with};
use spa::{Aim, COMPONENTS, Instance, precedes};
use std::alloc::{AllocError, Global};
use verdict::{nothing, weight_of};

/// What a place in each project costs, and what of it the supervisor does.
#[derive(Drop)]
struct Costs {
    projects: Vec<[i64; COMPONENTS]>,
    supervisors: Vec<[i64; COMPONENTS]>,
}

/// Lowers a cost to a bound that comes before it, and returns whether there is one.
fn lower(
    costs: &mut [[i64; COMPONENTS]],
    position: usize,
    aim: Aim,
    bound: &[i64; COMPONENTS],
) -> bool {
    if position >= costs.len() || !precedes(aim, bound, &costs[position]) {
        return false;
    }
    costs[position] = *bound;
    true
}

/// Returns what a project at a rank may cost, that it be worth as much as another at its rank and cost.
fn at_par(cost: &[i64; COMPONENTS], rank: usize, other: usize) -> [i64; COMPONENTS] {
    let mut par = *cost;
    if rank < COMPONENTS && other < COMPONENTS {
        par[rank] = par[rank].wrapping_add(1);
        par[other] = par[other].wrapping_sub(1);
    }
    par
}

/// Lowers the cost of the project of a list that is assigned until no other of the list is worth more, and returns whether it
/// was lowered.
fn lower_by_list(
    costs: &mut [[i64; COMPONENTS]],
    aim: Aim,
    list: &[usize],
    project: usize,
) -> bool {
    let Some(rank) = place_of(list, project) else {
        return false;
    };
    let mut lowered = false;
    for before in 0..list.len() {
        let other = list[before];
        if other < costs.len() {
            let par = at_par(&costs[other], rank, before + 1);
            lowered = lower(costs, project, aim, &par) || lowered;
        }
    }
    lowered
}

/// Lowers the costs of what is assigned until each student has the best of the list, and returns whether one was lowered.
fn lower_by_lists(costs: &mut Costs, aim: Aim, posted: &Posted, instance: &Instance) -> bool {
    let mut lowered = false;
    for student in 0..instance.student_count() {
        if student < posted.students.len() {
            if let Some(project) = posted.students[student] {
                let list = instance.list(student);
                lowered = lower_by_list(&mut costs.projects, aim, list, project) || lowered;
            }
        }
    }
    lowered
}

/// Lowers what a supervisor costs to what a project of the supervisor does, and a project with room to its supervisor; and
/// returns whether one was lowered.
fn lower_by_offer(costs: &mut Costs, aim: Aim, posted: &Posted, project: usize) -> bool {
    if project >= posted.projects.len() || project >= costs.projects.len() {
        return false;
    }
    let (supervisor, quota) = posted.projects[project];
    if supervisor >= costs.supervisors.len() {
        return false;
    }
    let cost = costs.projects[project];
    let lowered = lower(&mut costs.supervisors, supervisor, aim, &cost);
    if placed_at(posted, project) >= quota as usize {
        return lowered;
    }
    let cost = costs.supervisors[supervisor];
    lower(&mut costs.projects, project, aim, &cost) || lowered
}

/// Lowers costs by each project's supervisor, and returns whether one was lowered.
fn lower_by_offers(costs: &mut Costs, aim: Aim, posted: &Posted) -> bool {
    let mut lowered = false;
    for project in 0..posted.projects.len() {
        lowered = lower_by_offer(costs, aim, posted, project) || lowered;
    }
    lowered
}

/// Returns the costs that no list and no offer bounds: a first choice's weight, and zero of a supervisor with room.
fn unbounded(alloc: Global, posted: &Posted) -> Result<Costs, AllocError>
    requires { IsKnown posted.now }
{
    let mut projects = Vec::new(alloc);
    for _ in 0..posted.projects.len() {
        projects.push(weight_of(1))?;
    }
    let mut supervisors = Vec::new(alloc);
    for supervisor in 0..posted.supervisors.len() {
        let quota = posted.supervisors[supervisor] as usize;
        if placed_with(posted, supervisor) < quota {
            supervisors.push(nothing())?;
        } else {
            supervisors.push(weight_of(1))?;
        }
    }
    Ok(Costs {
        projects,
        supervisors,
    })
}

/// Lowers each cost of what is assigned to what it weighs, so that nobody would rather go without.
fn lower_by_weights(costs: &mut Costs, aim: Aim, posted: &Posted, instance: &Instance) {
    for student in 0..instance.student_count() {
        if student < posted.students.len() {
            if let Some(project) = posted.students[student] {
                if let Some(rank) = place_of(instance.list(student), project) {
                    if rank < COMPONENTS {
                        lower(&mut costs.projects, project, aim, &weight_of(rank));
                    }
                }
            }
        }
    }
}

/// Returns the part of a cost that the supervisor does not bear.
fn without(cost: &[i64; COMPONENTS], supervisor: &[i64; COMPONENTS]) -> [i64; COMPONENTS] {
    let mut price = *cost;
    for t in 0..COMPONENTS {
        price[t] = price[t].wrapping_sub(supervisor[t]);
    }
    price
}

/// Takes from each project's cost what the supervisor bears.
fn part(costs: &mut Costs, posted: &Posted) {
    for project in 0..posted.projects.len() {
        let supervisor = posted.projects[project].0;
        if project < costs.projects.len() && supervisor < costs.supervisors.len() {
            let price = without(&costs.projects[project], &costs.supervisors[supervisor]);
            costs.projects[project] = price;
        }
    }
}

/// Returns the greatest prices of projects and of supervisors at which all would accept what is posted, as far as the search
/// goes. Each round lowers costs by one bound more, so there are no more rounds than costs.
pub(crate) fn greatest(
    alloc: Global,
    instance: &Instance,
    aim: Aim,
    posted: &Posted,
) -> Result<(Vec<[i64; COMPONENTS]>, Vec<[i64; COMPONENTS]>), AllocError>
    requires { IsKnown posted.now }
{
    let mut costs = unbounded(alloc, posted)?;
    lower_by_weights(&mut costs, aim, posted, instance);
    for _ in 0..posted.projects.len() + posted.supervisors.len() {
        let by_list = lower_by_lists(&mut costs, aim, posted, instance);
        let by_offer = lower_by_offers(&mut costs, aim, posted);
        if !by_list && !by_offer {
            break;
        }
    }
    part(&mut costs, posted);
    let Costs {
        projects,
        supervisors,
    } = costs;
    Ok((projects, supervisors))
}
