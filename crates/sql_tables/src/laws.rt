//! A law: a function with nothing to do, whose contract is the law.

ghost use Rattle.sql_tables.specs.Laws.{EntriesEnter, LeavingsLeave};

/// What a statement makes of the rows of its table follows from its edit: a row is one more, or stands in the place of the one with its
/// key, and rows of a group are gone; and nothing else is written.
pub fn rows_law()
    ensures entry { EntriesEnter }
    ensures leaving { LeavingsLeave }
{}
