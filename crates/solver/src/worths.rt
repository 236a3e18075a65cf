//! What a pair is worth by an aim, lists of projects with their worths, and the numbers of worths.
#![tactic(auto)]

ghost use Rattle.std.specs.Prelude.{◌≡◌, ℕ, ◌<◌, ◌≤◌, ◌^◌, length, All, IfOk, OnOk, OnErr};
ghost use Rattle.spa.specs.declared.aim.Aim.{Aim};
ghost use Rattle.spa.specs.declared.aim.Aim.TheVariants.{Generous};
ghost use Rattle.spa.specs.Order.{as_read};
ghost use Rattle.spa.specs.Row.{at};
ghost use Rattle.spa.specs.Places.{lex_ops, row};
ghost use Rattle.spa.specs.declared.TheConstants.{MAX_STUDENTS, RANKS, COMPONENTS};
ghost use Rattle.network.specs.Seen.{IsAdmission};
ghost use Rattle.solver.specs.Inside.Weights.{worth_of, weighed};

use network::{Admitted, Network};
use spa::{Aim, COMPONENTS, Lex};
use std::alloc::{AllocError, Global};

/// Returns the worth of a pair of this rank, which is its weight as the aim reads it: one for the size, and for the rank one more
/// from the front on, or one less from the back on.
pub(crate) fn worth_of(aim: Aim, rank: usize) -> Lex
    requires first { 1 ≤ rank }
    requires last { rank ≤ RANKS }
    ensures { result ≡ worth_of aim rank }
{
    let mut row = [0; COMPONENTS];
    row[0] = 1;
    match aim {
        Aim::Greedy => row[rank] = 1,
        Aim::Generous => row[COMPONENTS - rank] = -1,
    }
    Lex(row)
}

/// Fills the entries with a list of projects, each with its worth.
fn weigh(aim: Aim, list: &[usize], entries: &mut Vec<(usize, Lex)>) -> Result<(), AllocError>
    requires { length list.now ≤ RANKS }
    ensures { OnOk result (entries.new.items ≡ weighed aim list.now) }
{
    entries.clear();
    for before in 0..list.len() {
        entries.push((list[before], worth_of(aim, before + 1)))?;
    }
    Ok(())
}

/// Admits one more student to a network, with the weights of the pairs of a list, as the aim reads them, as their
/// worths. The entries are room to work in.
pub(crate) fn admit_weighed(
    aim: Aim,
    network: &mut Network<Lex>,
    entries: &mut Vec<(usize, Lex)>,
    list: &[usize],
) -> Result<Admitted, AllocError>
    requires few { length network.old.lists < MAX_STUDENTS }
    requires short { length list.now ≤ RANKS }
    requires known { All (λ p. p < length network.old.projects) list.now }
    ensures admitted { IfOk result (λ a. IsAdmission (lex_ops COMPONENTS) network.old network.new (weighed aim list.now) a.placed a.relaxations) }
    ensures memory { OnErr result (network.new ≡ network.old) }
{
    weigh(aim, list, entries)?;
    network.admit(entries)
}

/// Returns the numbers of a worth, as the aim reads them: so they stand at their places again.
pub(crate) fn numbers(aim: Aim, worth: &Lex) -> [i64; COMPONENTS]
    requires { (lex_ops COMPONENTS).span worth.now < 2 ^ 62 }
    ensures { (t : ℕ) → t < COMPONENTS → at result t ≡ as_read aim (row COMPONENTS worth.now) t }
{
    match aim {
        Aim::Greedy => worth.0,
        Aim::Generous => turned(worth),
    }
}

/// Returns the numbers of a worth, as a generous aim reads them.
fn turned(worth: &Lex) -> [i64; COMPONENTS]
    requires { (lex_ops COMPONENTS).span worth.now < 2 ^ 62 }
    ensures { (t : ℕ) → t < COMPONENTS → at result t ≡ as_read Generous (row COMPONENTS worth.now) t }
{
    let mut numbers = [0; COMPONENTS];
    numbers[0] = worth.0[0];
    for k in 1..COMPONENTS {
        numbers[k] = -worth.0[COMPONENTS - k];
    }
    numbers
}
