//! Matchings that are best by an aim, with prices that prove them.
#![tactic(auto)]

ghost use Rattle.std.specs.Prelude.{◌≡◌, ℕ, ◌<◌, ◌≤◌, length, slice_get, Some, Ok, IfOk, IfSome};
ghost use Rattle.spa.specs.Order.{order};
ghost use Rattle.spa.specs.Matching.{IsBest};
ghost use Rattle.spa.specs.Matched.{pairs};
ghost use Rattle.spa.specs.declared.TheConstants.{COMPONENTS};
ghost use Rattle.spa.specs.Places.{lex_ops};
ghost use Rattle.network.specs.declared.TheConstants.{LARGEST_PRICE};
ghost use Rattle.network.specs.Seen.{price};
ghost use Rattle.verdict.specs.Verdict.{IsProvedBest};
ghost use Rattle.solver.specs.Inside.Solved.{IsOf, AreNumbersOf, ArePricesOf};

use crate::worths::{admit_weighed, numbers};
use network::Network;
use search::{search, settle};
use spa::{Aim, COMPONENTS, Instance, Lex, Matching, RANKS};
use std::alloc::{AllocError, Global};
use verdict::{Prices, Proved as Solved};

/// Returns a network of the instance's rolls that has admitted all its students, with the weight of each pair, as the aim reads
/// it, as its worth.
fn admit_all(alloc: Global, instance: &Instance, aim: Aim) -> Result<Network<Lex>, AllocError>
    ensures { IfOk result (λ n. IsOf aim instance.now.shape n) }
{
    let mut network = Network::start(alloc, instance.supervisors(), instance.projects())?;
    let mut entries = Vec::with_capacity(alloc, RANKS)?;
    for student in 0..instance.student_count() {
        admit_weighed(aim, &mut network, &mut entries, instance.list(student))?;
    }
    Ok(network)
}

/// Returns a place as a matching stores it.
fn narrow(place: Option<usize>) -> Option<u8>
    requires { IfSome place (λ k. k < 256) }
    ensures { result ≡ place }
{
    Some(place? as u8)
}

/// Returns the places of the students admitted, as a matching.
fn matching_of(
    alloc: Global,
    network: &Network<Lex>,
    students: usize,
) -> Result<Matching, AllocError>
    requires students { length network.now.lists ≡ students }
    requires places { length network.now.places ≡ students }
    requires small { (s k : ℕ) → slice_get network.now.places s ≡ Some (Some k) → k < 256 }
    ensures { IfOk result (λ m. m.places.items ≡ network.now.places) }
{
    let mut places = Vec::with_capacity(alloc, students)?;
    for student in 0..students {
        places.push(narrow(network.place_of(student)))?;
    }
    Ok(Matching { places })
}

/// Returns the numbers of worths, as the aim reads them.
fn rows(alloc: Global, aim: Aim, worths: &[Lex]) -> Result<Vec<[i64; COMPONENTS]>, AllocError>
    requires { (n : ℕ) → (lex_ops COMPONENTS).span (price (lex_ops COMPONENTS) worths.now n) ≤ LARGEST_PRICE }
    ensures { IfOk result (λ v. AreNumbersOf aim v.items worths.now) }
{
    let mut rows = Vec::with_capacity(alloc, worths.len())?;
    for worth in worths {
        rows.push(numbers(aim, worth))?;
    }
    Ok(rows)
}

/// Returns the prices of the network as rows of numbers: size and ranks at their places, whatever the aim.
fn prices_of(alloc: Global, aim: Aim, network: &Network<Lex>) -> Result<Prices, AllocError>
    ensures { IfOk result (λ p. ArePricesOf aim network.now p) }
{
    let (students, projects, supervisors) = network.prices()?;
    Ok(Prices {
        students: rows(alloc, aim, &students)?,
        projects: rows(alloc, aim, &projects)?,
        supervisors: rows(alloc, aim, &supervisors)?,
    })
}

/// Returns the matching that is left when all students of the instance were admitted one by one, and the prices that prove it best.
fn admitted(alloc: Global, instance: &Instance, aim: Aim) -> Result<Solved, AllocError>
    ensures proved { IfOk result (λ s. IsProvedBest (order aim) instance.now.shape s.matching.places.items s.prices) }
    ensures best { IfOk result (λ s. IsBest aim instance.now.shape (pairs instance.now.shape s.matching.places.items)) }
{
    let network = admit_all(alloc, instance, aim)?;
    let matching = matching_of(alloc, &network, instance.student_count())?;
    let prices = prices_of(alloc, aim, &network)?;
    Ok(Solved { matching, prices })
}

/// Returns what was found, if anything was. Else the students are admitted one by one to a network whose pairs are worth their weights,
/// which is proved to come to the best, and of the best matchings the lot takes one. An `Err` is out of memory, and comes only if nothing
/// was found.
pub fn found_or_admitted(
    alloc: Global,
    instance: &Instance,
    aim: Aim,
    found: Option<Solved>,
) -> Result<Solved, AllocError>
    requires { IfSome found (λ s. IsProvedBest (order aim) instance.now.shape s.matching.places.items s.prices) }
    ensures proved { IfOk result (λ s. IsProvedBest (order aim) instance.now.shape s.matching.places.items s.prices) }
    ensures best { IfOk result (λ s. IsBest aim instance.now.shape (pairs instance.now.shape s.matching.places.items)) }
    ensures taken { IfSome found (λ s. result ≡ Ok s) }
{
    match found {
        Some(solved) => Ok(solved),
        None => settle(alloc, instance, aim, admitted(alloc, instance, aim)?),
    }
}

/// Returns a matching of the instance that is best by the aim, and prices that prove it: `verdict::check` accepts them. No matching has
/// more pairs, and none with as many has a better profile. An `Err` is out of memory.
pub fn solve(alloc: Global, instance: &Instance, aim: Aim) -> Result<Solved, AllocError>
    ensures proved { IfOk result (λ s. IsProvedBest (order aim) instance.now.shape s.matching.places.items s.prices) }
    ensures best { IfOk result (λ s. IsBest aim instance.now.shape (pairs instance.now.shape s.matching.places.items)) }
{
    let found = search(alloc, instance, aim)?;
    found_or_admitted(alloc, instance, aim, found)
}
