//! The report `profile`.

ghost use Rattle.std.specs.Prelude.{◌≡◌, ◌++◌, IfOk, OnOk, string_bytes, flat_map};
ghost use Rattle.std.specs.List.{range_with_len};
ghost use Rattle.spa.specs.declared.TheConstants.{RANKS};
ghost use Rattle.office_model.specs.State.{is_open, placed_in_round, placed_at_rank};
ghost use Rattle.reports.specs.Texts.{rank_row, state_word, profile_text};

use crate::find::round_of;
use office::Office;
use spa::RANKS;
use std::alloc::{AllocError, Global};
use std::fmt::Write;

/// Whether a round is open.
fn is_open(office: &Office, round: u32) -> bool
    ensures { result ≡ is_open office.now round }
{
    match round_of(office, round) {
        Some(found) => found.is_open,
        None => false,
    }
}

/// Returns the word for a round that is open, or else closed.
fn state_word(office: &Office, round: u32) -> &'static str
    ensures { result.now ≡ state_word office.now round }
{
    if is_open(office, round) {
        "open"
    } else {
        "closed"
    }
}

/// Returns how many students a round placed.
fn placed_in_round(office: &Office, round: u32) -> usize
    ensures { result ≡ placed_in_round office.now round }
{
    office
        .placements()
        .iter()
        .filter(|p| p.round == round)
        .count()
}

/// Returns how many of them at a rank.
fn placed_at_rank(office: &Office, round: u32, rank: u32) -> usize
    ensures { result ≡ placed_at_rank office.now round rank }
{
    office
        .placements()
        .iter()
        .filter(|p| p.round == round && p.rank == rank)
        .count()
}

/// Appends how many a round placed at each rank.
fn push_ranks(out: &mut String, office: &Office, round: u32) -> Result<(), AllocError>
    ensures { OnOk result (string_bytes out.new ≡ string_bytes out.old ++ flat_map (rank_row office.now round) (range_with_len 1 RANKS)) }
{
    for k in 0..RANKS {
        let rank = k as u32 + 1;
        let placed = placed_at_rank(office, round, rank);
        writeln!(out, "RANK {rank:<3}{placed:>5}")?;
    }
    Ok(())
}

/// Writes a round with its state, how many students have lists in it, are placed by it, and are placed at each rank. An `Err` is out of
/// memory.
pub fn profile(alloc: Global, office: &Office, round: u32) -> Result<String, AllocError>
    ensures { IfOk result (λ text. string_bytes text ≡ profile_text office.now round) }
{
    let state = state_word(office, round);
    let students = office.lists(round).len();
    let placed = placed_in_round(office, round);
    let mut out = String::new(alloc);
    write!(
        out,
        "ROUND   {round:>5} {state}\nSTUDENTS{students:>5}\nPLACED  {placed:>5}\n"
    )?;
    push_ranks(&mut out, office, round)?;
    Ok(out)
}
