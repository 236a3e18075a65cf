//! The changes of a request that makes several, and the placements that a reopening keeps.

ghost use Rattle.std.specs.Prelude.{◌≡◌, ◌≤◌, IfOk, length};
ghost use Rattle.spa.specs.declared.TheConstants.{RANKS};
ghost use Rattle.office_model.specs.Making as spec;
ghost use Rattle.office.specs.changes.Changes.{kept_placements};

use office_model::{Change, Placement, RoundAim, choice_row, list_part, placed_part, round_row};
use spa::{Aim, Code};
use std::alloc::{AllocError, Global};

/// Returns the change by which a student's list in a round goes, where there is one.
fn list_taken(
    alloc: Global,
    round: u32,
    student: &str,
    has_list: bool,
) -> Result<Vec<Change>, AllocError>
    ensures { IfOk result (λ changes. changes.items ≡ spec.list_taken round student.now has_list) }
{
    let mut changes = Vec::new(alloc);
    if has_list {
        changes.push(Change::Remove(list_part(alloc, round, student)?))?;
    }
    Ok(changes)
}

/// Returns the changes by which a student's list in a round gives way to new choices: first it goes, where there is one, and then the new
/// choices are added. An `Err` is out of memory.
pub fn list_changes(
    alloc: Global,
    round: u32,
    student: &str,
    has_list: bool,
    new: &[Code],
) -> Result<Vec<Change>, AllocError>
    requires { length new.now ≤ RANKS }
    ensures { IfOk result (λ changes. changes.items ≡ spec.list_changes round student.now has_list new.now) }
{
    let mut changes = list_taken(alloc, round, student, has_list)?;
    for (place, code) in new.iter().enumerate() {
        let place = place as u32 + 1;
        let row = choice_row(alloc, round, student, place, code.as_str())?;
        changes.push(Change::Add(row))?;
    }
    Ok(changes)
}

/// Returns the changes by which a round of this number and with this aim opens. An `Err` is out of memory.
pub fn opening_changes(alloc: Global, round: u32, aim: Aim) -> Result<Vec<Change>, AllocError>
    ensures { IfOk result (λ changes. changes.items ≡ spec.opening_changes round aim) }
{
    let mut changes = Vec::new(alloc);
    changes.push(Change::Add(round_row(alloc, round, true)?))?;
    changes.push(Change::Add(RoundAim { round, aim }.row(alloc)?))?;
    Ok(changes)
}

/// Returns the changes by which a round opens again, and its placements go. An `Err` is out of memory.
pub fn reopening_changes(alloc: Global, round: u32) -> Result<Vec<Change>, AllocError>
    ensures { IfOk result (λ changes. changes.items ≡ spec.reopening_changes round) }
{
    let mut changes = Vec::new(alloc);
    changes.push(Change::Put(round_row(alloc, round, true)?))?;
    changes.push(Change::Remove(placed_part(alloc, round)?))?;
    Ok(changes)
}

/// Returns the placements of other rounds, in memory of their own.
pub fn kept_placements(
    alloc: Global,
    placements: &[Placement],
    round: u32,
) -> Result<Vec<Placement>, AllocError>
    ensures { IfOk result (λ kept. kept.items ≡ kept_placements round placements.now) }
{
    let mut kept = Vec::new(alloc);
    for placement in placements {
        if placement.round != round {
            kept.push(placement.copy())?;
        }
    }
    Ok(kept)
}
