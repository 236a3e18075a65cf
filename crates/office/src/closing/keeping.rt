//! What a matching makes of the lists of a round.

ghost use Rattle.std.specs.Prelude.{◌≡◌, ◌≤◌, IfOk, length};
ghost use Rattle.office.specs.closing.Common.{IsPlaceOf, put_all, placement_key};
ghost use Rattle.office.specs.closing.Places.{placed_at, placed_by, ArePlacesIn};
ghost use Rattle.office.specs.closing.Changes.{closing_changes};

use office_model::{Change, Entries, Listed, Placement, round_row};
use std::alloc::{AllocError, Global};

/// Returns the placement of a student at a place of the list, from 1.
fn placed_at(round: u32, listed: &Listed, place: u8) -> Placement
    requires { let list = listed.now in IsPlaceOf list.choices place }
    ensures { result ≡ placed_at round listed.now place }
{
    let choices = listed.choices.as_slice();
    Placement {
        student: listed.student.copy(),
        round,
        project: choices[place as usize - 1].copy(),
        rank: place as u32,
    }
}

/// Returns the placements that places in the lists of a round make. An `Err` is out of memory.
pub fn placements_of(
    alloc: Global,
    round: u32,
    lists: &[Listed],
    places: &[Option<u8>],
) -> Result<Vec<Placement>, AllocError>
    requires { ArePlacesIn lists.now places.now }
    ensures made { IfOk result (λ placed. placed.items ≡ placed_by round lists.now places.now) }
    ensures few { IfOk result (λ placed. length placed.items ≤ length lists.now) }
{
    let mut placed = Vec::new(alloc);
    for student in 0..lists.len() {
        if let Some(place) = places[student] {
            placed.push(placed_at(round, &lists[student], place))?;
        }
    }
    Ok(placed)
}

/// Returns the placements with these put after one another. They share the entries until the first is put. An `Err` is out of memory.
pub fn placements_after(
    alloc: Global,
    placements: &Entries<Placement>,
    placed: Vec<Placement>,
) -> Result<Entries<Placement>, AllocError>
    ensures { IfOk result (λ after. after ≡ put_all placement_key placed.items placements.now) }
{
    let mut after = placements.duplicate(alloc)?;
    for placement in placed {
        after.put(placement)?;
    }
    Ok(after)
}

/// Returns the changes of the tables where a round closes with these placements: the round's row is put first, and then
/// the rows of the placements are added. An `Err` is out of memory.
pub fn close_changes(
    alloc: Global,
    round: u32,
    placed: &[Placement],
) -> Result<Vec<Change>, AllocError>
    ensures { IfOk result (λ changes. changes.items ≡ closing_changes round placed.now) }
{
    let mut changes = Vec::new(alloc);
    changes.push(Change::Put(round_row(alloc, round, false)?))?;
    for placement in placed {
        changes.push(Change::Add(placement.row(alloc)?))?;
    }
    Ok(changes)
}
