//! What a place is worth at the prices.
#![tactic(auto)]

ghost use Rattle.std.specs.Prelude.{◌≡◌, ◌<◌, ◌≤◌, ◌↔◌, ◌-ℤ◌, IsTrue, pos};
ghost use Rattle.spa.specs.Order.{plus};
ghost use Rattle.spa.specs.Row.{at};
ghost use Rattle.spa.specs.Matching.{weight};
ghost use Rattle.verdict.specs.Rows.{EachInRange};
ghost use Rattle.public_result.specs.Posted.{IsNothing, IsRow};

use spa::COMPONENTS;
use verdict::weight_of;

/// Whether a price is that of nothing.
pub(crate) fn is_nothing(price: &[i64; COMPONENTS]) -> bool
    ensures { IsTrue result ↔ IsNothing (at price.now) }
{
    for t in 0..COMPONENTS {
        if price[t] != 0 {
            return false;
        }
    }
    true
}

/// Returns what a pair of this rank weighs, less the two prices.
pub(crate) fn left_of(
    rank: usize,
    project: &[i64; COMPONENTS],
    supervisor: &[i64; COMPONENTS],
) -> [i64; COMPONENTS]
    requires first { 1 ≤ rank }
    requires last { rank < COMPONENTS }
    requires project { EachInRange project.now }
    requires supervisor { EachInRange supervisor.now }
    ensures { IsRow result (λ t. pos (weight rank t) -ℤ plus (at project.now) (at supervisor.now) t) }
{
    let weight = weight_of(rank);
    let mut left = [0; COMPONENTS];
    for t in 0..COMPONENTS {
        left[t] = weight[t] - (project[t] + supervisor[t]);
    }
    left
}
