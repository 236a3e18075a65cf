//! Searches for a matching that is best by an aim, with prices that prove it.
//!
//! Nobody has to believe the search: what leaves this crate is what `verdict::accept` took. Of its parts it is promised that they
//! are safe and end, so a mistake there costs time, and never a better matching.
//!
//! The students are admitted one by one, each along a cheapest augmenting walk of the residual network (`walk.rt`): E. W. Dijkstra's
//! search over labels that potentials keep from being negative, which stops at the best end. The potentials are the prices, each packed
//! into one whole number (`labels.rt`).
//!
//! Of several best matchings the lot takes one (`lot.rt`, `exchange.rt`), so all ways to find one come to the same.
//!
//! Read on in `state.rt` (who is where, and what it costs), then `heap.rt` (what a search has reached), `walk.rt` and `admit.rt`
//! (what a walk changes).
#![tactic(auto)]

mod admit;
mod exchange;
mod heap;
mod labels;
mod lot;
mod padded;
mod state;
mod walk;

ghost use Rattle.std.specs.Prelude.{IfOk, IfSome};
ghost use Rattle.spa.specs.Order.{order};
ghost use Rattle.spa.specs.Matching.{IsBest};
ghost use Rattle.spa.specs.Matched.{pairs};
ghost use Rattle.verdict.specs.Verdict.{IsProvedBest};

use crate::admit::admit;
use crate::heap::Frontier;
use crate::lot::draw;
use crate::state::Network;
use spa::{Aim, Instance};
use std::alloc::{AllocError, Global};
use verdict::{Proved, accept, check};

/// Returns a matching of the instance that is best by the aim, and of those the one that the lot takes, with prices that prove it, if the
/// search came to one: its prices are checked. An `Err` is out of memory.
pub fn search(alloc: Global, instance: &Instance, aim: Aim) -> Result<Option<Proved>, AllocError>
    ensures proved { IfOk result (λ r. IfSome r (λ s. IsProvedBest (order aim) instance.now.shape s.matching.places.items s.prices)) }
    ensures best { IfOk result (λ r. IfSome r (λ s. IsBest aim instance.now.shape (pairs instance.now.shape s.matching.places.items))) }
{
    let mut network = Network::start(alloc, instance, aim)?;
    let mut frontier = Frontier::start(alloc, network.nodes.items.len())?;
    for student in 0..instance.student_count() {
        admit(&mut network, &mut frontier, student)?;
    }
    let prices = network.prices(alloc)?;
    draw(alloc, &mut network)?;
    let matching = network.matching(alloc)?;
    Ok(accept(instance, aim, matching, prices))
}

/// Returns the best matching that the lot takes, with the prices of the one given; or that one, where they prove no other best. An `Err` is
/// out of memory.
pub fn settle(
    alloc: Global,
    instance: &Instance,
    aim: Aim,
    proved: Proved,
) -> Result<Proved, AllocError>
    requires { IsProvedBest (order aim) instance.now.shape proved.matching.places.items proved.prices }
    ensures proved { IfOk result (λ s. IsProvedBest (order aim) instance.now.shape s.matching.places.items s.prices) }
    ensures best { IfOk result (λ s. IsBest aim instance.now.shape (pairs instance.now.shape s.matching.places.items)) }
{
    let mut network = Network::of(alloc, instance, aim, &proved)?;
    draw(alloc, &mut network)?;
    let matching = network.matching(alloc)?;
    match check(instance, aim, &matching, &proved.prices) {
        Ok(()) => Ok(Proved {
            matching,
            prices: proved.prices,
        }),
        Err(_) => Ok(proved),
    }
}
