//! The editions of the tables, as tables.

ghost use Rattle.std.specs.Prelude.{◌≡◌, ◌<◌, IsTrue, false};
ghost use Rattle.store.specs.Editions.{beyond, number_of, rolls_of};
ghost use Rattle.store.specs.Tables.{HasNone, HasNoneOf};

use crate::all_tables::TABLES;
use sql_tables::Table;
use sql_tables::layout::has_table;
use sqlite_schema::schema::Schema;

/// An edition of the tables.
#[derive(Clone, Copy, PartialEq, Eq, Drop)]
pub enum Edition {
    /// Rounds have no aim: all are greedy. Lists have eight places at most.
    First,
    /// Each round has an aim. Lists have eight places at most.
    Second,
    /// Each round has an aim, and lists have twelve places at most, in tables of their own.
    Third,
}

/// The edition in which tables are made.
pub const LATEST: Edition = Edition::Third;

/// Returns the number of an edition.
pub fn number_of(edition: Edition) -> u32
    ensures { result ≡ number_of edition }
{
    match edition {
        Edition::First => 1,
        Edition::Second => 2,
        Edition::Third => 3,
    }
}

/// Returns the tables that hold rows of an office in an edition. Each comes after those that it refers to.
pub fn rolls_of(edition: Edition) -> &'static [Table]
    ensures { result.now ≡ rolls_of edition }
{
    // An edition adds its tables at the end, so that each has the first of one array: no table can be left out of a list.
    match edition {
        Edition::First => &TABLES[1..8],
        Edition::Second => &TABLES[1..9],
        Edition::Third => &TABLES[1..],
    }
}

/// Returns the tables that later editions have besides them.
pub fn beyond(edition: Edition) -> &'static [Table]
    ensures { result.now ≡ beyond edition }
{
    match edition {
        Edition::First => &TABLES[8..],
        Edition::Second => &TABLES[9..],
        Edition::Third => &[],
    }
}

/// Whether none of these tables is there.
pub fn has_none_of(schema: &Schema, tables: &[Table]) -> bool
    ensures right { IsTrue result → HasNoneOf tables.now schema.now }
    ensures wrong { result ≡ false → HasNoneOf tables.now schema.now → ⊥ }
{
    for table in tables {
        if has_table(schema, *table) {
            return false;
        }
    }
    true
}

/// Whether none of the tables is there.
pub fn has_none(schema: &Schema) -> bool
    ensures right { IsTrue result → HasNone schema.now }
    ensures wrong { result ≡ false → HasNone schema.now → ⊥ }
{
    has_none_of(schema, &TABLES)
}

/// Returns the edition of the tables that are there: the earliest beyond which none is.
pub fn edition_of(schema: &Schema) -> Edition
    ensures alone { HasNoneOf (beyond result) schema.now }
    ensures later { (e : Edition) → number_of e < number_of result → HasNoneOf (beyond e) schema.now → ⊥ }
{
    // One table of a later edition makes it that one. Where its others are not there, the tables are damaged.
    if has_none_of(schema, beyond(Edition::First)) {
        Edition::First
    } else if has_none_of(schema, beyond(Edition::Second)) {
        Edition::Second
    } else {
        LATEST
    }
}
