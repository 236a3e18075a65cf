//! Rows are taken in, stage by stage.

ghost use Rattle.std.specs.Prelude.{◌≡◌, IfOk, OnOk, Some, None, Err};
ghost use Rattle.office.specs.from_rows.Common.{State, empty, IsFit};
ghost use Rattle.office_model.specs.Rows.{AreRowsOf};
ghost use Rattle.office.specs.from_rows.View.{drafted};
ghost use Rattle.office.specs.from_rows.Inside.Gathering.{place_in, stage_of, at_stage, staged, gathered};

use crate::from_rows::draft::PartialOffice;
use crate::from_rows::fault::RowsFault;
use office_model::{Cell, Row, Table};
use spa::RANKS;
use std::alloc::Global;

/// How many stages there are: one for each place of a list, and one before them.
const STAGES: u32 = RANKS as u32 + 1;

/// Returns the place of a choice in its list, where a list can have it.
fn place_in(cells: &[Cell]) -> u32
    ensures { result ≡ place_in cells.now }
{
    match cells {
        [_, _, Cell::Number(place), _] if *place < STAGES => *place,
        _ => 0,
    }
}

/// Returns the stage at which a row is taken in: a choice at its place, and all else before the choices.
fn stage_of(row: &Row) -> u32
    ensures { result ≡ stage_of row.now }
{
    match row.table() {
        Table::Choice => place_in(row.cells()),
        _ => 0,
    }
}

/// Takes in the rows of a stage.
fn take_stage(
    draft: &mut PartialOffice,
    alloc: Global,
    rows: &[Row],
    stage: u32,
) -> Result<(), RowsFault>
    ensures taken { OnOk result (gathered (drafted draft.old) (at_stage stage rows.now) ≡ Some (drafted draft.new)) }
    ensures unfit { result ≡ Err RowsFault.Unfit → gathered (drafted draft.old) (at_stage stage rows.now) ≡ None }
{
    for row in rows {
        if stage_of(row) == stage {
            draft.add_row(alloc, row)?;
        }
    }
    Ok(())
}

/// Gathers what the rows hold.
fn take_all(alloc: Global, rows: &[Row]) -> Result<PartialOffice, RowsFault>
    ensures found { IfOk result (λ found. gathered empty (staged rows.now) ≡ Some (drafted found)) }
    ensures unfit { result ≡ Err RowsFault.Unfit → gathered empty (staged rows.now) ≡ None }
{
    let mut found = PartialOffice::new(alloc);
    for stage in 0..STAGES {
        take_stage(&mut found, alloc, rows, stage)?;
    }
    Ok(found)
}

/// Returns the office of these rows, which may come in any order. `Unfit` where no fit office has them. `Memory` where it runs out.
pub fn gather(alloc: Global, rows: &[Row]) -> Result<PartialOffice, RowsFault>
    ensures fit { IfOk result (λ draft. IsFit (drafted draft)) }
    ensures rows { IfOk result (λ draft. AreRowsOf rows.now (drafted draft)) }
    ensures unfit { result ≡ Err RowsFault.Unfit → (o : State) → IsFit o → AreRowsOf rows.now o → ⊥ }
{
    let draft = take_all(alloc, rows)?;
    draft.need_whole()?;
    Ok(draft)
}
