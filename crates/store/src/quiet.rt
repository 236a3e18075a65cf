//! Whether other tables act on those of the store.

ghost use Rattle.std.specs.Prelude.{◌≡◌, ◌↔◌, IsTrue, false};
ghost use Rattle.store.specs.Saving.{AreActedOn, AreActedOnAmong, AreInert, AreLeftAmong, IsActedOnAt, IsLeftAlone};

use crate::edition::{LATEST, rolls_of};
use sql_tables::Table;
use sql_tables::inert::is_inert;
use sql_tables::layout::tree_of;
use sqlite_schema::schema::Schema;

/// Whether no foreign key acts on the rows of a table.
fn is_left(schema: &Schema, table: Table) -> bool
    ensures sound { IsTrue result → IsLeftAlone table schema.now }
    ensures exact { (result ≡ false) ↔ IsActedOnAt table schema.now }
{
    match tree_of(schema, table) {
        Some(tree) => is_inert(schema, tree),
        // No statement of the store reaches rows of a table that is not listed as it is made here, so no action follows from one.
        None => true,
    }
}

/// Whether no foreign key acts on the rows of these tables.
pub fn are_left_among(schema: &Schema, tables: &[Table]) -> bool
    ensures sound { IsTrue result → AreLeftAmong tables.now schema.now }
    ensures exact { (result ≡ false) ↔ AreActedOnAmong tables.now schema.now }
{
    for table in tables {
        if !is_left(schema, *table) {
            return false;
        }
    }
    true
}

/// Whether no foreign key of another table acts on the tables of the rolls.
pub fn are_left(schema: &Schema) -> bool
    ensures sound { IsTrue result → AreInert schema.now }
    ensures exact { (result ≡ false) ↔ AreActedOn schema.now }
{
    are_left_among(schema, rolls_of(LATEST))
}
