//! What the lines on round files print.

ghost use Rattle.std.specs.Prelude.{◌≡◌, ℕ, List, ◌∷◌, ◌++◌, flat_map, IfOk, OnOk, string_bytes, decimal};
ghost use Rattle.spa.specs.Order.{order};
ghost use Rattle.spa.specs.Matched.{HasPlaces};
ghost use Rattle.verdict.specs.Verdict.{IsFirstFailure};
ghost use Rattle.round_files.specs.Rounds.{best_text, fault_text, IsSolved, IsChecked, IsCheckedRound};

use crate::public::checked_public;
use intake::{RoundFault, RoundParts, is_public, read_round, write_round};
use office_model::Refusal;
use solver::solve;
use spa::profile;
use std::alloc::{AllocError, Global};
use std::fmt::Write;
use verdict::{CheckFault, check};

/// Why a line prints no result.
#[derive(Drop)]
pub enum Trouble {
    /// It is refused.
    Refused(Refusal),
    /// This line of the round text, from 1, is bad.
    BadLine(usize),
    /// A check failed, and this text says where.
    Failed(String),
}

impl From<AllocError> for Trouble {
    ghost use Rattle.std.specs.Prelude.{◌≡◌};
    ghost use Rattle.office_model.specs.declared.refusal.Refusal.TheVariants.{Memory};
    ghost use Rattle.round_files.specs.declared.rounds.Trouble.TheVariants.{Refused};

    ghost from_gives = { λ _ t. t ≡ Refused Memory };

    fn from(_error: AllocError) -> Trouble {
        Trouble::Refused(Refusal::Memory)
    }
}

impl From<RoundFault> for Trouble {
    ghost use Rattle.std.specs.Prelude.{◌≡◌};
    ghost use Rattle.round_files.specs.Inside.Rounds.{trouble_of};

    ghost from_gives = { λ f t. t ≡ trouble_of f };

    fn from(fault: RoundFault) -> Trouble {
        match fault {
            RoundFault::Memory => Trouble::Refused(Refusal::Memory),
            RoundFault::TooLarge => Trouble::Refused(Refusal::TooLarge),
            RoundFault::Line(n) => Trouble::BadLine(n),
        }
    }
}

/// Returns the round of a text with a matching and prices that prove it best by the text's aim. An `Err` is a refusal, or the first bad
/// line.
pub fn solved(alloc: Global, text: &[u8]) -> Result<String, Trouble>
    ensures { IsSolved text.now result }
{
    let parts = read_round(alloc, text)?;
    let solved = solve(alloc, &parts.instance, parts.aim)?;
    Ok(write_round(
        alloc,
        &parts.instance,
        parts.aim,
        Some((&solved.matching, &solved.prices)),
    )?)
}

/// Returns size and profile of the matching of a round text where its prices prove it best by the text's aim, or else the first
/// condition that fails.
fn checked_round(alloc: Global, text: &[u8]) -> Result<String, Trouble>
    ensures { IsCheckedRound text.now result }
{
    let parts = read_round(alloc, text)?;
    match check(&parts.instance, parts.aim, &parts.matching, &parts.prices) {
        Ok(()) => Ok(best(alloc, &parts)?),
        Err(fault) => Err(Trouble::Failed(failed(alloc, &parts, fault)?)),
    }
}

/// Returns what everybody's check says of a public text, and of any other what the check of its matching and its prices does. An `Err` is
/// a refusal, the first bad line, or the first condition that fails.
pub fn checked(alloc: Global, text: &[u8]) -> Result<String, Trouble>
    ensures { IsChecked text.now result }
{
    if is_public(alloc, text)? {
        return checked_public(alloc, text);
    }
    checked_round(alloc, text)
}

/// Appends numbers, each after a space.
fn push_counts(out: &mut String, counts: &[u32]) -> Result<(), AllocError>
    ensures { OnOk result (string_bytes out.new ≡ string_bytes out.old ++ flat_map (λ n. 32 ∷ decimal n) counts.now) }
{
    for count in counts {
        write!(out, " {count}")?;
    }
    Ok(())
}

/// Returns what is printed of a best matching.
fn best(alloc: Global, parts: &RoundParts) -> Result<String, AllocError>
    requires { HasPlaces parts.now.instance.shape parts.now.matching.places.items }
    ensures { IfOk result (λ text. string_bytes text ≡ best_text parts.now.instance.shape parts.now.matching.places.items) }
{
    let size = parts.matching.size(&parts.instance);
    let counts = profile(&parts.instance, &parts.matching);
    let mut text = String::new(alloc);
    write!(text, "best size {size} profile")?;
    push_counts(&mut text, &counts)?;
    text.push_str("\n")?;
    Ok(text)
}

/// Returns what is printed of a check that failed: the number of the condition, and the first uncovered student and place.
pub(crate) fn failed(
    alloc: Global,
    parts: &RoundParts,
    fault: CheckFault,
) -> Result<String, AllocError>
    requires { IsFirstFailure (order parts.now.aim) parts.now.instance.shape parts.now.matching.places.items parts.now.prices fault }
    ensures { IfOk result (λ text. string_bytes text ≡ fault_text parts.now.instance fault) }
{
    let mut text = String::new(alloc);
    match fault {
        CheckFault::NotMatching => text.push_str("fault 1\n")?,
        CheckFault::Shape => text.push_str("fault 2\n")?,
        CheckFault::Below => text.push_str("fault 3\n")?,
        CheckFault::Uncovered(student, place) => {
            let code = parts.instance.student_codes()[student].as_str();
            writeln!(text, "fault 4 {code} {place}")?;
        }
        CheckFault::Unequal => text.push_str("fault 5\n")?,
    }
    Ok(text)
}
