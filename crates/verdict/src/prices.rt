//! Prices of an instance: whether they have its shape, and whether none is below zero.
#![tactic(auto)]

ghost use Rattle.std.specs.Prelude.{◌≡◌, ◌↔◌, IsTrue};
ghost use Rattle.spa.specs.Order.{order, none};
ghost use Rattle.spa.specs.Row.{at};
ghost use Rattle.verdict.specs.Rows.{EachInRange, AllInRange, AreNotBelowZero};
ghost use Rattle.verdict.specs.Verdict.{HasShape, IsNotBelowZero};

use spa::{Aim, COMPONENTS, Instance, precedes};

/// The greatest number that a place of a price may have, and the least but for its sign.
pub const LIMIT: i64 = 1_000_000;

/// Prices of the students, projects and supervisors of an instance, in its order.
#[derive(Drop)]
pub struct Prices {
    pub students: Vec<[i64; COMPONENTS]>,
    pub projects: Vec<[i64; COMPONENTS]>,
    pub supervisors: Vec<[i64; COMPONENTS]>,
}

/// Whether each place of a price is within the limit.
#[tactic(auto, using(std::proofs::lemmas::Int::ints))]
fn is_in_range(price: &[i64; COMPONENTS]) -> bool
    ensures { IsTrue result ↔ EachInRange price.now }
{
    for t in 0..COMPONENTS {
        if price[t] < -LIMIT || price[t] > LIMIT {
            return false;
        }
    }
    true
}

/// Whether each place of each price is within the limit.
pub fn are_in_range(prices: &[[i64; COMPONENTS]]) -> bool
    ensures { IsTrue result ↔ AllInRange prices.now }
{
    for price in prices {
        if !is_in_range(price) {
            return false;
        }
    }
    true
}

/// Returns the price of nothing: zero.
pub fn nothing() -> [i64; COMPONENTS]
    ensures { at result ≡ none }
{
    [0; COMPONENTS]
}

/// Whether a price comes before zero by an aim.
pub fn is_below_zero(aim: Aim, price: &[i64; COMPONENTS]) -> bool
    ensures { IsTrue result ↔ order aim (at price.now) none }
{
    precedes(aim, price, &nothing())
}

/// Whether none of these prices comes before zero by an aim.
pub fn are_not_below_zero(aim: Aim, prices: &[[i64; COMPONENTS]]) -> bool
    ensures { IsTrue result ↔ AreNotBelowZero (order aim) prices.now }
{
    for price in prices {
        if is_below_zero(aim, price) {
            return false;
        }
    }
    true
}

/// Whether there is a price for each entry of each roll, and each place is within the limits.
pub(crate) fn has_shape(instance: &Instance, prices: &Prices) -> bool
    ensures { IsTrue result ↔ HasShape instance.now.shape prices.now }
{
    prices.students.len() == instance.student_count()
        && prices.projects.len() == instance.project_count()
        && prices.supervisors.len() == instance.supervisor_count()
        && are_in_range(&prices.students)
        && are_in_range(&prices.projects)
        && are_in_range(&prices.supervisors)
}

/// Whether no price comes before zero by an aim.
pub(crate) fn is_not_below_zero(aim: Aim, prices: &Prices) -> bool
    ensures { IsTrue result ↔ IsNotBelowZero (order aim) prices.now }
{
    if !are_not_below_zero(aim, &prices.students) {
        return false;
    }
    if !are_not_below_zero(aim, &prices.projects) {
        return false;
    }
    are_not_below_zero(aim, &prices.supervisors)
}
