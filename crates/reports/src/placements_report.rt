//! The report `placements`.

ghost use Rattle.std.specs.Prelude.{◌≡◌, ◌++◌, ◌∷◌, [], ◌==◌, IfOk, OnOk, string_bytes, flat_map, filter};
ghost use Rattle.reports.specs.Texts.{placement_line, placements_text};

use office::Office;
use office_model::Placement;
use std::alloc::{AllocError, Global};
use std::fmt::Write;

/// Appends the line of a placement by the round.
fn push_placement(out: &mut String, round: u32, placement: &Placement) -> Result<(), AllocError>
    ensures { OnOk result (string_bytes out.new ≡ string_bytes out.old ++ flat_map placement_line (filter (λ p. p.round == round) (placement.now ∷ []))) }
{
    if placement.round == round {
        let student = placement.student.as_str();
        let project = placement.project.as_str();
        let rank = placement.rank;
        writeln!(out, "{student:<16} {project:<16} {rank:>2}")?;
    }
    Ok(())
}

/// Writes whom a round placed, in which projects and at which ranks. An `Err` is out of memory.
pub fn placements(alloc: Global, office: &Office, round: u32) -> Result<String, AllocError>
    ensures { IfOk result (λ text. string_bytes text ≡ placements_text office.now round) }
{
    let mut out = String::new(alloc);
    for placement in office.placements() {
        push_placement(&mut out, round, placement)?;
    }
    Ok(out)
}
