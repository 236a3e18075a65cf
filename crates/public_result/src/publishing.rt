//! What is published of a round: the prices that show least of the lists.
#![tactic(auto)]

ghost use Rattle.std.specs.Prelude.{◌≡◌, ◌↔◌, IfOk, IsTrue};
ghost use Rattle.spa.specs.declared.aim.Aim.{Aim};
ghost use Rattle.spa.specs.Order.{order};
ghost use Rattle.spa.specs.Matched.{HasPlaces};
ghost use Rattle.verdict.specs.Verdict.{IsProvedBest};
ghost use Rattle.public_result.specs.Posted.{AreContent, HasPrices, IsCleared, IsKnown, chosen, with_lists};

use crate::greatest::greatest;
use crate::own::check_own;
use crate::posted::Posted;
use crate::posting::post;
use crate::public::check_public;
use crate::shape::is_known;
use spa::{Aim, COMPONENTS, Instance, Matching};
use std::alloc::{AllocError, Global};
use std::mem;
use verdict::Prices;

/// Whether each student of an instance accepts by the own check.
fn are_content(posted: &Posted, aim: Aim, instance: &Instance) -> bool
    requires known { IsKnown posted.now }
    requires prices { HasPrices posted.now }
    ensures { IsTrue result ↔ AreContent (order aim) posted.now instance.now.shape.students }
{
    if posted.students.len() != instance.student_count() {
        return false;
    }
    for student in 0..instance.student_count() {
        if check_own(posted, aim, student, instance.list(student)).is_err() {
            return false;
        }
    }
    true
}

/// Whether everybody and each student of an instance accept what is posted.
fn is_accepted(posted: &Posted, aim: Aim, instance: &Instance) -> bool
    ensures { IsTrue result ↔ IsCleared (order aim) posted.now × AreContent (order aim) posted.now instance.now.shape.students }
{
    check_public(posted, aim).is_ok() && are_content(posted, aim, instance)
}

/// Posts other prices where everybody and each student of an instance accept them.
fn replace_prices(
    posted: &mut Posted,
    aim: Aim,
    instance: &Instance,
    projects: Vec<[i64; COMPONENTS]>,
    supervisors: Vec<[i64; COMPONENTS]>,
)
    ensures students { posted.new.students.items ≡ posted.old.students.items }
    ensures rolls { with_lists posted.new instance.now.shape.students ≡ with_lists posted.old instance.now.shape.students }
    ensures accepted { IsCleared (order aim) posted.old × AreContent (order aim) posted.old instance.now.shape.students
        → IsCleared (order aim) posted.new × AreContent (order aim) posted.new instance.now.shape.students }
{
    let own_projects = mem::replace(&mut posted.project_prices, projects);
    let own_supervisors = mem::replace(&mut posted.supervisor_prices, supervisors);
    if !is_accepted(posted, aim, instance) {
        posted.project_prices = own_projects;
        posted.supervisor_prices = own_supervisors;
    }
}

/// Returns what is published of a matching that prices prove best by an aim: it is posted with the greatest prices that the
/// search finds, since they show least of the lists, or with these where not all accept those. An `Err` is out of memory.
pub fn publish(
    alloc: Global,
    instance: &Instance,
    aim: Aim,
    matching: &Matching,
    prices: Prices,
) -> Result<Posted, AllocError>
    requires { HasPlaces instance.now.shape matching.now.places.items }
    ensures rolls { IfOk result (λ t. with_lists t instance.now.shape.students ≡ instance.now.shape) }
    ensures students { IfOk result (λ t. t.students.items ≡ chosen instance.now.shape.students matching.now.places.items) }
    ensures accepted { IfOk result (λ t. IsProvedBest (order aim) instance.now.shape matching.now.places.items prices
        → IsCleared (order aim) t × AreContent (order aim) t instance.now.shape.students) }
{
    let mut posted = post(alloc, instance, matching, prices)?;
    if is_known(&posted) {
        let (projects, supervisors) = greatest(alloc, instance, aim, &posted)?;
        replace_prices(&mut posted, aim, instance, projects, supervisors);
    }
    Ok(posted)
}
