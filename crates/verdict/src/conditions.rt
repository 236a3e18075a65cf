//! The five conditions, in their order.
#![tactic(auto)]

ghost use Rattle.std.specs.Prelude.{◌≡◌, ◌↔◌, ℕ, List, Option, Some, IsOk, OnOk, IfErr, IfSome};
ghost use Rattle.spa.specs.declared.aim.Aim.{Aim};
ghost use Rattle.spa.specs.Order.{order};
ghost use Rattle.spa.specs.Matching.{IsBest};
ghost use Rattle.spa.specs.Matched.{pairs};
ghost use Rattle.verdict.specs.Verdict.{IsProvedBest, IsFirstFailure};
ghost use Rattle.verdict.specs.declared.prices.Prices.{Prices};

use crate::cover::first_uncovered;
use crate::prices::{Prices, has_shape, is_not_below_zero};
use crate::totals::is_equal;
use spa::{Aim, Instance, Matching};

/// The first condition that fails.
#[derive(Clone, Copy, PartialEq, Eq, Drop)]
pub enum CheckFault {
    /// The matching is none of the instance.
    NotMatching,
    /// There is not one price within the limits for each entry of each roll.
    Shape,
    /// A price is below zero, as the aim reads it.
    Below,
    /// This student and the project at this place of the list pay less than the pair weighs, as the aim reads both.
    Uncovered(usize, usize),
    /// The prices do not add up to the total weight of the matching.
    Unequal,
}

/// Checks that the prices prove the matching best by an aim, whoever made them: that no matching has more pairs, and none
/// with as many has a better profile. Allocates nothing. An `Err` is the first of the five conditions that does not hold.
pub fn check(
    instance: &Instance,
    aim: Aim,
    matching: &Matching,
    prices: &Prices,
) -> Result<(), CheckFault>
    ensures accepted { IsOk result ↔ IsProvedBest (order aim) instance.now.shape matching.now.places.items prices.now }
    ensures failed { IfErr result (λ f. IsFirstFailure (order aim) instance.now.shape matching.now.places.items prices.now f) }

    // A yes proves the matching best against every matching of the instance.
    ensures best { OnOk result (IsBest aim instance.now.shape (pairs instance.now.shape matching.now.places.items)) }
{
    if matching.fault(instance).is_some() {
        return Err(CheckFault::NotMatching);
    }
    if !has_shape(instance, prices) {
        return Err(CheckFault::Shape);
    }
    if !is_not_below_zero(aim, prices) {
        return Err(CheckFault::Below);
    }
    if let Some((student, place)) = first_uncovered(instance, aim, prices) {
        return Err(CheckFault::Uncovered(student, place));
    }
    if !is_equal(instance, matching, prices) {
        return Err(CheckFault::Unequal);
    }
    Ok(())
}

/// A matching, and prices that prove it best.
#[derive(Drop)]
pub struct Proved {
    pub matching: Matching,
    pub prices: Prices,
}

/// Returns the matching with the prices, if they prove it best by the aim, whoever made them. Allocates nothing.
pub fn accept(instance: &Instance, aim: Aim, matching: Matching, prices: Prices) -> Option<Proved>
    ensures proved { IfSome result (λ s. IsProvedBest (order aim) instance.now.shape s.matching.places.items s.prices) }
    ensures best { IfSome result (λ s. IsBest aim instance.now.shape (pairs instance.now.shape s.matching.places.items)) }

    // What proves is not refused, and comes back as it is.
    ensures exact { IsProvedBest (order aim) instance.now.shape matching.places.items prices → result ≡ Some (record { matching = matching; prices = prices }) }
{
    match check(instance, aim, &matching, &prices) {
        Ok(()) => Some(Proved { matching, prices }),
        Err(_) => None,
    }
}
