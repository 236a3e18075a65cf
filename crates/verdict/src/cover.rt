//! Whether a student, a project of the list and its supervisor together pay what the pair weighs.
#![tactic(auto)]

ghost use Rattle.std.specs.Prelude.{◌≡◌, ℕ, ◌<◌, ◌≤◌, ◌↔◌, IsTrue, length, MatchOption, pos};
ghost use Rattle.spa.specs.Order.{order, plus};
ghost use Rattle.spa.specs.Row.{at};
ghost use Rattle.spa.specs.Shape.{IsPlaceOf, list_of};
ghost use Rattle.spa.specs.Matching.{weight};
ghost use Rattle.verdict.specs.Rows.{EachInRange};
ghost use Rattle.verdict.specs.Verdict.{HasShape, IsUncoveredAt, IsFirstUncovered};
ghost use Rattle.verdict.specs.Inside.Cover.{IsListCovered, IsFirstPlace};

use crate::prices::Prices;
use spa::{Aim, COMPONENTS, Instance, precedes};

/// Returns what three prices come to together.
fn paid(
    student: &[i64; COMPONENTS],
    project: &[i64; COMPONENTS],
    supervisor: &[i64; COMPONENTS],
) -> [i64; COMPONENTS]
    requires student { EachInRange student.now }
    requires project { EachInRange project.now }
    requires supervisor { EachInRange supervisor.now }
    ensures { at result ≡ plus (at student.now) (plus (at project.now) (at supervisor.now)) }
{
    let mut paid = [0; COMPONENTS];
    for t in 0..COMPONENTS {
        paid[t] = student[t] + (project[t] + supervisor[t]);
    }
    paid
}

/// Returns what a pair of this rank weighs.
pub fn weight_of(rank: usize) -> [i64; COMPONENTS]
    requires first { 1 ≤ rank }
    requires last { rank < COMPONENTS }
    ensures { at result ≡ (λ t. pos (weight rank t)) }
{
    let mut weight = [0; COMPONENTS];
    weight[0] = 1;
    weight[rank] = 1;
    weight
}

/// Whether the prices do not cover the student and the project at this place of the list, by an aim.
fn is_uncovered(
    instance: &Instance,
    aim: Aim,
    prices: &Prices,
    student: usize,
    place: usize,
) -> bool
    requires shape { HasShape instance.now.shape prices.now }
    requires student { student < length instance.now.shape.students }
    requires listed { IsPlaceOf (list_of instance.now.shape student) place }
    ensures { IsTrue result ↔ IsUncoveredAt (order aim) instance.now.shape prices.now student place }
{
    let project = instance.choice(student, place);
    let supervisor = instance.supervisor_of(project);
    let paid = paid(
        &prices.students[student],
        &prices.projects[project],
        &prices.supervisors[supervisor],
    );
    precedes(aim, &paid, &weight_of(place))
}

/// Returns the first place of the student's list that the prices do not cover.
fn first_uncovered_place(
    instance: &Instance,
    aim: Aim,
    prices: &Prices,
    student: usize,
) -> Option<usize>
    requires shape { HasShape instance.now.shape prices.now }
    requires student { student < length instance.now.shape.students }
    ensures { MatchOption result (IsListCovered (order aim) instance.now.shape prices.now student)
        (λ k. IsFirstPlace (order aim) instance.now.shape prices.now student k) }
{
    for before in 0..instance.list(student).len() {
        let place = before + 1;
        if is_uncovered(instance, aim, prices, student, place) {
            return Some(place);
        }
    }
    None
}

/// Returns the first student, and the first place of the list, that the prices do not cover.
pub(crate) fn first_uncovered(
    instance: &Instance,
    aim: Aim,
    prices: &Prices,
) -> Option<(usize, usize)>
    requires { HasShape instance.now.shape prices.now }
    ensures { MatchOption result ((s k : ℕ) → s < length instance.now.shape.students → IsPlaceOf (list_of instance.now.shape s) k
        → ¬ IsUncoveredAt (order aim) instance.now.shape prices.now s k)
        (λ r. IsFirstUncovered (order aim) instance.now.shape prices.now r.0 r.1) }
{
    for student in 0..instance.student_count() {
        if let Some(place) = first_uncovered_place(instance, aim, prices, student) {
            return Some((student, place));
        }
    }
    None
}
