//! The law of the five conditions: a function with nothing to do, whose contract is the law.
#![tactic(auto)]

ghost use Rattle.std.specs.Prelude.{ℕ, List, Option};
ghost use Rattle.spa.specs.declared.aim.Aim.{Aim};
ghost use Rattle.spa.specs.Order.{order};
ghost use Rattle.spa.specs.Matching.{IsBest};
ghost use Rattle.spa.specs.Matched.{pairs};
ghost use Rattle.verdict.specs.Verdict.{IsProvedBest};
ghost use Rattle.verdict.specs.declared.prices.Prices.{Prices};

use spa::Instance;

/// Prices that meet the five conditions by an aim prove a matching best by it.
pub fn verdict_law(instance: &Instance)
    ensures { (aim : Aim) (ks : List (Option ℕ)) (p : Prices) → IsProvedBest (order aim) instance.now.shape ks p
        → IsBest aim instance.now.shape (pairs instance.now.shape ks) }
{}
