//! What is posted of a matching and its prices.
#![tactic(auto)]

ghost use Rattle.std.specs.Prelude.{◌≡◌, ℕ, IfOk, Some};
ghost use Rattle.spa.specs.declared.aim.Aim.{Aim};
ghost use Rattle.spa.specs.Order.{order};
ghost use Rattle.spa.specs.Shape.{IsPlaceOf, list_of};
ghost use Rattle.spa.specs.Matched.{HasPlaces};
ghost use Rattle.verdict.specs.Verdict.{IsProvedBest};
ghost use Rattle.public_result.specs.Posted.{AreContent, IsCleared, IsPostOf, chosen, assigned_at, with_lists};

use crate::posted::Posted;
use spa::{Instance, Matching};
use std::alloc::{AllocError, Global};
use verdict::Prices;

/// Returns the project at a place of a student's list, or none without a place.
fn project_at(instance: &Instance, student: usize, place: Option<u8>) -> Option<usize>
    requires { (k : ℕ) → place ≡ Some k → IsPlaceOf (list_of instance.now.shape student) k }
    ensures { result ≡ assigned_at (list_of instance.now.shape student) place }
{
    let place = place?;
    Some(instance.choice(student, place as usize))
}

/// Returns what each student is assigned.
fn projects_of(
    alloc: Global,
    instance: &Instance,
    matching: &Matching,
) -> Result<Vec<Option<usize>>, AllocError>
    requires { HasPlaces instance.now.shape matching.now.places.items }
    ensures { IfOk result (λ assigned. assigned.items ≡ chosen instance.now.shape.students matching.now.places.items) }
{
    let mut assigned = Vec::new(alloc);
    for student in 0..matching.places.len() {
        assigned.push(project_at(instance, student, matching.places[student]))?;
    }
    Ok(assigned)
}

/// Returns what is posted of a matching and its prices: all but the lists and the prices of the students. Where the prices
/// prove the matching best, everybody's check and each student's own accept it. An `Err` is out of memory.
pub fn post(
    alloc: Global,
    instance: &Instance,
    matching: &Matching,
    prices: Prices,
) -> Result<Posted, AllocError>
    requires { HasPlaces instance.now.shape matching.now.places.items }
    ensures rolls { IfOk result (λ t. with_lists t instance.now.shape.students ≡ instance.now.shape) }
    ensures post { IfOk result (λ t. IsPostOf t instance.now.shape.students matching.now.places.items prices) }
    ensures accepted { IfOk result (λ t. (aim : Aim) → IsProvedBest (order aim) instance.now.shape matching.now.places.items prices
        → IsCleared (order aim) t × AreContent (order aim) t instance.now.shape.students) }
{
    let supervisors = Vec::from_slice(alloc, instance.supervisors())?;
    let projects = Vec::from_slice(alloc, instance.projects())?;
    let students = projects_of(alloc, instance, matching)?;
    let Prices {
        projects: project_prices,
        supervisors: supervisor_prices,
        ..
    } = prices;
    Ok(Posted {
        supervisors,
        projects,
        students,
        project_prices,
        supervisor_prices,
    })
}
